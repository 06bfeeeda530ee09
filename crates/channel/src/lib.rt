// One sync manager channel: its settings, the judging of an enabling, the questions before an access, and the service from an accepted enabling
// to the end. No memory and no frames: the station above reads and writes the memory at the places that are told here.
#![tactic(auto)]

mod facts;
mod record;
mod service;
mod setting;
mod steps;

pub use facts::{Facts, Refusal};
pub use record::Channel;
pub use service::{Buffer, Roles, Service, Shown, Transaction};
pub use setting::{Denial, Kind, Setting, Window, settings_read_back};
