// A running frame from its beginning to its end. Only its first 1,500 octets are taken.
ghost use Rattle.std.specs.Prelude.{◌≡◌};
ghost use Rattle.frame.specs.Frames.{begun_frame, has_room, wanted_by, given, answered, reason_number, ended_by, kept};

use crate::command::Addresses;
use crate::cursor::{Cursor, Position};
use crate::datagram::Wanted;
use crate::outcome::Accessed;

const CAPACITY: u16 = 1500;

// Octets taken, whether one more was refused, and where the frame stands.
#[derive(Clone, Copy)]
pub struct Progress {
    pub count: u16,
    pub overrun: bool,
    pub cursor: Cursor,
}

// The frame check's verdict, which the driver brings. Two names: a `bool` at a call would not say which is good.
#[derive(Clone, Copy, PartialEq, Eq, Debug)]
pub enum Verdict {
    Good,
    Bad,
}

// Why an octet is refused, or a frame dropped at its end, with its number: more than 1,500 octets, an end before the last datagram is complete, a
// bad frame check.
#[derive(Clone, Copy, PartialEq, Eq, Debug)]
pub enum Reason {
    TooLong = 16,
    Unfinished = 17,
    BadCheck = 18,
}

impl Reason {
    pub fn number(self) -> u8
        ensures { result ≡ reason_number self }
    {
        self as u8
    }
}

impl Progress {
    pub fn begin() -> Progress
        ensures { result ≡ begun_frame }
    {
        Progress {
            count: 0,
            overrun: false,
            cursor: Cursor::begin(),
        }
    }

    // Whether the next octet is among the first 1,500.
    pub fn has_room(&self) -> bool
        ensures { result ≡ has_room self.now }
    {
        self.count < CAPACITY
    }

    // The accesses that the next octet asks for, to be made before it is handed in: none, if it is no data octet or past the first 1,500.
    pub fn wanted(&self) -> Option<Wanted>
        ensures { result ≡ wanted_by self.now }
    {
        if self.has_room() {
            self.cursor.wanted()
        } else {
            None
        }
    }

    // Takes one octet with what came of its accesses, and gives the octet that leaves. Past the first 1,500 it is refused and changes nothing
    // but the note of it: the caller forwards it as it came. (The three are what one octet brings: a struct of them would be made for this alone.)
    pub fn octet<F>(
        &mut self,
        octet: u8,
        addresses: Addresses,
        accessed: &Accessed<F>,
    ) -> Result<u8, Reason>
        ensures next { self.new ≡ given self.old octet addresses accessed.now.read accessed.now.write }
        ensures answer { result ≡ answered self.old octet accessed.now.laid }
    {
        if !self.has_room() {
            self.overrun = true;
            return Err(Reason::TooLong);
        }
        self.count += 1;
        Ok(self.cursor.step(octet, addresses, accessed))
    }

    // Whether the frame, ended here, is kept.
    pub fn end(&self, verdict: Verdict) -> Result<(), Reason>
        ensures { result ≡ kept self.now verdict }
    {
        if self.overrun {
            return Err(Reason::TooLong);
        }
        if !self.is_complete() {
            return Err(Reason::Unfinished);
        }
        match verdict {
            Verdict::Good => Ok(()),
            Verdict::Bad => Err(Reason::BadCheck),
        }
    }

    // Whether the last datagram is complete, or the frame passing.
    fn is_complete(&self) -> bool
        ensures { result ≡ ended_by self.now.cursor.position }
    {
        matches!(self.cursor.position, Position::Padding | Position::Passing)
    }
}
