// The questions before an access to a channel's area, in their order: the first no decides.
ghost use Rattle.std.specs.Prelude.{◌≡◌};
ghost use Rattle.channel.specs.Windows.{offset_in};
ghost use Rattle.channel.specs.Facts.{right_way, taken_of, opens, turn, asked, refusal_number};

use crate::setting::{Kind, Window};
use access::{Direction, Side};

// What the questions need to know of a channel in service: the octets that the open writing and the open reading have taken (0 where none
// is open, since an open one has taken at least 1), has the running frame closed a transaction here, and is there a message to read: in a
// mailbox, it is full; in a buffered channel, a writing has been completed.
#[derive(Clone, Copy)]
pub struct Facts {
    pub window: Window,
    pub stored: u16,
    pub fetched: u16,
    pub closed: bool,
    pub message: bool,
}

// Why an access is refused, with its number.
#[derive(Clone, Copy, PartialEq, Eq, Debug)]
pub enum Refusal {
    OutsideWindow = 5,
    WrongSide = 6,
    AlreadyClosed = 7,
    OutOfTurn = 8,
    MailboxFull = 9,
    MailboxEmpty = 10,
    NothingWritten = 11,
}

impl Refusal {
    // One line in each enum of refusals: a trait over their crates would be no shorter.
    pub fn number(self) -> u8
        ensures { result ≡ refusal_number self }
    {
        self as u8
    }
}

impl Window {
    // One side writes, the other reads.
    fn right_way(self, side: Side, direction: Direction) -> bool
        ensures { result ≡ right_way self side direction }
    {
        match direction {
            Direction::Write => side == self.stores,
            Direction::Read => side != self.stores,
        }
    }
}

impl Facts {
    // May an access at this address of the area be done? Then the answer is its offset in the window.
    pub fn ask(self, side: Side, direction: Direction, address: u32) -> Result<u16, Refusal>
        ensures { result ≡ asked self side direction (offset_in self.window address) }
    {
        let offset = self.window.offset(address);
        if offset >= u32::from(self.window.length) {
            Err(Refusal::OutsideWindow)
        } else if !self.window.right_way(side, direction) {
            Err(Refusal::WrongSide)
        } else if side == Side::Master && self.closed {
            Err(Refusal::AlreadyClosed)
        } else {
            self.ask_turn(direction, offset as u16)
        }
    }

    fn ask_turn(self, direction: Direction, offset: u16) -> Result<u16, Refusal>
        ensures { result ≡ turn self direction offset }
    {
        let taken = self.taken(direction);
        if offset > taken {
            Err(Refusal::OutOfTurn)
        } else if taken == 0 {
            self.ask_opening(direction, offset)
        } else {
            Ok(offset)
        }
    }

    fn taken(self, direction: Direction) -> u16
        ensures { result ≡ taken_of self direction }
    {
        match direction {
            Direction::Write => self.stored,
            Direction::Read => self.fetched,
        }
    }

    // The last question, if none is open.
    fn ask_opening(self, direction: Direction, offset: u16) -> Result<u16, Refusal>
        ensures { result ≡ opens self.window.kind direction self.message offset }
    {
        match (self.window.kind, direction, self.message) {
            (Kind::Mailbox, Direction::Write, true) => Err(Refusal::MailboxFull),
            (Kind::Mailbox, Direction::Read, false) => Err(Refusal::MailboxEmpty),
            (Kind::Buffered, Direction::Read, false) => Err(Refusal::NothingWritten),
            _ => Ok(offset),
        }
    }
}
