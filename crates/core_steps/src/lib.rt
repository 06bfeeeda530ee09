// What a station does without its memory: the register map, the questions of registers and areas, the accesses of an octet, and enablings.
#![tactic(auto)]

pub mod enabling;
pub mod octets;
pub mod questions;
pub mod registers;
