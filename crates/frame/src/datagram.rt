// The datagram that a frame stands in, as its octets came so far.
ghost use Rattle.std.specs.Prelude.{◌≡◌};
ghost use Rattle.frame.specs.Datagrams.{fresh, added, tallied, place_of, wanted_for};

use crate::command::{Addressing, Command};
use crate::outcome::{Accessed, Tally};

// ADP and ADO are the two halves of the address as they came; a logical address is both, ADP the low half. `length` is LEN, `more` is NEXT.
// Before ADP is judged, `addressed` is false.
#[derive(Clone, Copy)]
pub struct Datagram {
    pub command: Command,
    pub adp: u16,
    pub ado: u16,
    pub length: u16,
    pub more: bool,
    pub addressed: bool,
    pub read: Tally,
    pub write: Tally,
}

// The place that a data octet concerns. Neither wraps.
#[derive(Clone, Copy, PartialEq, Eq, Debug)]
pub enum Place {
    Physical(u32),
    Logical(u64),
}

// What a data octet asks for: a read, a write, both (the read comes first) or nothing.
#[derive(Clone, Copy, PartialEq, Eq, Debug)]
pub struct Wanted {
    pub place: Place,
    pub read: bool,
    pub write: bool,
}

impl Datagram {
    pub(crate) fn of(command: Command) -> Datagram
        ensures { result ≡ fresh command }
    {
        Datagram {
            command,
            adp: 0,
            ado: 0,
            length: 0,
            more: false,
            addressed: false,
            read: Tally::Nothing,
            write: Tally::Nothing,
        }
    }

    // The place of data octet `index`.
    fn place(&self, index: u16) -> Place
        ensures { result ≡ place_of self.now index }
    {
        match self.command.addressing() {
            Addressing::ByMapping => {
                Place::Logical(u64::from(self.adp) + 65536 * u64::from(self.ado) + u64::from(index))
            }
            _ => Place::Physical(u32::from(self.ado) + u32::from(index)),
        }
    }

    pub(crate) fn wanted(&self, index: u16) -> Wanted
        ensures { result ≡ wanted_for self.now index }
    {
        let action = self.command.action();
        Wanted {
            place: self.place(index),
            read: action.reads(self.addressed),
            write: action.writes(self.addressed),
        }
    }

    // What the datagram adds to its working counter.
    pub(crate) fn adds(&self) -> u8
        ensures { result ≡ added self.now }
    {
        self.read.worth(1) + self.write.worth(self.command.action().write_worth())
    }

    // Counts what came of one data octet.
    pub(crate) fn tally<F>(&mut self, accessed: &Accessed<F>)
        ensures { self.new ≡ tallied self.old accessed.now.read accessed.now.write }
    {
        self.read = self.read.meets(&accessed.read);
        self.write = self.write.meets(&accessed.write);
    }
}
