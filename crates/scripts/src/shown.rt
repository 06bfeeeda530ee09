// Calls, answers and faults as text.
use frame::outcome::Outcome;
use frame::progress::Verdict;
use rules::data::{Answer, Call};
use rules::fault::Fault;
use std::fmt;

// What is asked: the part of a line before the colon.
#[derive(Clone, Copy)]
pub struct Asked(pub Call);

// What is answered: the part after it.
#[derive(Clone, Copy)]
pub struct Answered(pub Answer);

// Two types for what came of an access: one over both would need a trait for what is told of an octet and of `()`, and be no shorter.
#[derive(Clone, Copy)]
struct Fetched(Outcome<u8, Fault>);

#[derive(Clone, Copy)]
struct Written(Outcome<(), Fault>);

impl fmt::Display for Asked {
    fn fmt<W: fmt::Write>(&self, f: &mut fmt::Formatter<W>) -> fmt::Result {
        match self.0 {
            Call::Begin => f.write_str("begin"),
            Call::Octet { octet, .. } => write!(f, "octet {octet:02X}"),
            Call::End {
                verdict: Verdict::Good,
                ..
            } => f.write_str("end good"),
            Call::End {
                verdict: Verdict::Bad,
                ..
            } => f.write_str("end bad"),
            Call::Read { address } => write!(f, "read 0x{address:04X}"),
            Call::Write { address, octet } => write!(f, "write 0x{address:04X} {octet:02X}"),
        }
    }
}

impl fmt::Display for Answered {
    fn fmt<W: fmt::Write>(&self, f: &mut fmt::Formatter<W>) -> fmt::Result {
        match self.0 {
            Answer::Running => f.write_str("running"),
            Answer::Forwards { octet, read, write } => {
                let read = Fetched(read);
                let write = Written(write);
                write!(f, "forwards {octet:02X}; read {read}; write {write}")
            }
            Answer::Kept { enabling: None } => f.write_str("kept"),
            Answer::Kept {
                enabling: Some(fault),
            } => write!(f, "kept; refused {fault}"),
            Answer::Dropped(fault) => write!(f, "dropped {fault}"),
            Answer::Got(octet) => write!(f, "{octet:02X}"),
            Answer::Stored => f.write_str("done"),
            Answer::Refused(fault) => write!(f, "refused {fault}"),
        }
    }
}

impl fmt::Display for Fetched {
    fn fmt<W: fmt::Write>(&self, f: &mut fmt::Formatter<W>) -> fmt::Result {
        match self.0 {
            Outcome::NotWanted => f.write_str("none"),
            Outcome::Done(octet) => write!(f, "{octet:02X}"),
            Outcome::Refused(fault) => write!(f, "refused {fault}"),
        }
    }
}

impl fmt::Display for Written {
    fn fmt<W: fmt::Write>(&self, f: &mut fmt::Formatter<W>) -> fmt::Result {
        match self.0 {
            Outcome::NotWanted => f.write_str("none"),
            Outcome::Done(()) => f.write_str("done"),
            Outcome::Refused(fault) => write!(f, "refused {fault}"),
        }
    }
}
