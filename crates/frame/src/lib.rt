// An incoming frame octet by octet: where it stands, which accesses its next octet asks for, and what leaves.
// No memory and no registers: what came of the accesses is handed in.
#![tactic(auto)]

pub mod command;
pub mod cursor;
pub mod datagram;
pub mod feed;
pub mod laws;
pub mod outcome;
pub mod progress;
