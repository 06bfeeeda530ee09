// The token of a running frame, and what the calls of a frame answer.
ghost use Rattle.std.specs.Prelude.{◌≡◌};
ghost use Rattle.station.specs.Replies.{end_fault};

use core_steps::questions::refused;
use frame::outcome::Outcome;
use rules::fault::{Fault, Reason};

// A frame that was begun and not yet ended: `begin` mints it, `end` spends it. It cannot be let go.
pub struct Frame {
    pub(crate) number: u16,
}

// The octet that leaves, and what came of the reads and of the writes that the octet made.
#[derive(Clone, Copy, PartialEq, Eq, Debug)]
pub struct OctetAnswer {
    pub forwarded: u8,
    pub read: Outcome<u8, Fault>,
    pub write: Outcome<(), Fault>,
}

// Why a frame is not kept: it is not this station's running frame, and is handed back; or it ended, and is dropped.
pub enum EndRefusal {
    NotThisFrame(Frame),
    Dropped(Fault),
}

impl EndRefusal {
    // The refusal as a fault; no `From`, so that no `?` lets a frame go unseen. A frame that was handed back is let go with it: if its station still stands, end it there instead.
    pub fn fault(self) -> Fault
        ensures { result ≡ end_fault self }
    {
        match self {
            EndRefusal::NotThisFrame(frame) => {
                let Frame { number: _ } = frame;
                refused(Reason::NoSuchFrame, 0)
            }
            EndRefusal::Dropped(fault) => fault,
        }
    }
}
