// The station: its five calls over any memory.
#![tactic(auto)]

mod calls;
mod octets;
mod reach;
mod script;
mod steps;
mod token;

pub use calls::Station;
pub use script::{Entry, replay};
pub use token::{EndRefusal, Frame, OctetAnswer};
