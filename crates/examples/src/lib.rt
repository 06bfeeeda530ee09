// Worked examples and tables of cases. The crates below have no tests of their own, since a crate with tests is proved twice.
#![tactic(auto)]

mod channel_cases;
#[cfg(test)]
mod common;
pub mod driver;
mod driver_cases;
pub mod frame_cases;
mod mapping_cases;
mod memory_cases;
mod station_cases;
