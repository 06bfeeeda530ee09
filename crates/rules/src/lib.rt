// The rules of the station, as definitions over plain data (specs/), and the promise about messages, proved of them (proofs/).
#![tactic(auto)]

pub mod data;
pub mod fault;
pub mod promise;
