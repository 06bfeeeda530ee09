// FMMU entities: which logical bits each covers, where they land, and the accesses that one logical octet makes.
#![tactic(auto)]

pub mod accesses;
pub mod entity;
pub mod mapped;
pub mod serving;
