// What channels, mapping and registers speak of in common: the side and the direction of an access, the octets of a register field, and a list
// with one element replaced.
#![tactic(auto)]

pub mod field;
pub mod list;

// Who makes an access: the master, by a frame, or the local side, the device that the station stands in.
#[derive(Clone, Copy, PartialEq, Eq, Debug)]
pub enum Side {
    Master,
    Local,
}

#[derive(Clone, Copy, PartialEq, Eq, Debug)]
pub enum Direction {
    Read,
    Write,
}
