// Octets bit by bit, and the part that an access has in an octet.
#![tactic(auto)]

pub mod share;
