// Where in its frame the next octet stands, and what becomes of that octet.
ghost use Rattle.std.specs.Prelude.{◌≡◌, ◌+◌, ◌%◌, ◌&&◌, ◌==◌, nat_lt};
ghost use Rattle.frame.specs.Cursors.{to, begun, data_from, followed_by, carried, shown, advanced, leaves_of, wanted_at};
ghost use Rattle.frame.specs.Datagrams.{pair, fresh, judged, offset, measured, tallied, added};
ghost use Rattle.frame.specs.Commands.{command_of, addressing_of, forwards_next};

use crate::command::{Addresses, Command};
use crate::datagram::{Datagram, Wanted};
use crate::outcome::Accessed;

// The part of the frame that its next octet is. Of a field of two octets the second knows what it needs of the first.
#[derive(Clone, Copy)]
pub enum Position {
    HeaderLow,
    HeaderHigh,
    Command,
    Index,
    AdpLow,
    AdpHigh { low: u8 },
    AdoLow,
    AdoHigh { low: u8 },
    LenLow,
    LenHigh { low: u8 },
    IrqLow,
    IrqHigh,
    Data { index: u16 },
    CounterLow,
    CounterHigh { carry: bool },
    Padding,
    Passing,
}

#[derive(Clone, Copy)]
pub struct Cursor {
    pub position: Position,
    pub datagram: Datagram,
}

impl Cursor {
    pub(crate) fn begin() -> Cursor
        ensures { result ≡ begun }
    {
        Cursor {
            position: Position::HeaderLow,
            datagram: Datagram::of(Command::Other),
        }
    }

    // What the next octet asks for: nothing, if it is no data octet.
    pub(crate) fn wanted(&self) -> Option<Wanted>
        ensures { result ≡ wanted_at self.now.position self.now.datagram }
    {
        match self.position {
            Position::Data { index } => Some(self.datagram.wanted(index)),
            _ => None,
        }
    }

    // Takes one octet with what came of its accesses, and gives the octet that leaves.
    pub(crate) fn step<F>(&mut self, octet: u8, addresses: Addresses, accessed: &Accessed<F>) -> u8
        ensures next { self.new ≡ advanced self.old octet addresses accessed.now.read accessed.now.write }
        ensures leaves { result ≡ leaves_of self.old octet accessed.now.laid }
    {
        // One `match` on position and octet together, in place: a form asked for (docs/DECISIONS.md).
        match (self.position, octet) {
            (Position::HeaderLow, _) => self.pass(octet, Position::HeaderHigh),
            (Position::HeaderHigh, 0x10..=0x1f) => self.pass(octet, Position::Command),
            (Position::HeaderHigh, _) => self.pass(octet, Position::Passing),
            (Position::Command, _) => self.command(octet),
            (Position::Index, _) => self.pass(octet, Position::AdpLow),
            (Position::AdpLow, low) => self.adp_low(low),
            (Position::AdpHigh { low }, high) => self.adp_high(low, high, addresses),
            (Position::AdoLow, low) => self.pass(octet, Position::AdoHigh { low }),
            (Position::AdoHigh { low }, high) => self.ado_high(low, high),
            (Position::LenLow, low) => self.pass(octet, Position::LenHigh { low }),
            (Position::LenHigh { low }, high) => self.len_high(low, high),
            (Position::IrqLow, _) => self.pass(octet, Position::IrqHigh),
            (Position::IrqHigh, _) => self.pass(octet, data_from(0, self.datagram.length)),
            (Position::Data { index }, _) => self.data(index, octet, accessed),
            (Position::CounterLow, low) => self.counter_low(low),
            (Position::CounterHigh { carry }, high) => self.counter_high(carry, high),
            (Position::Padding | Position::Passing, _) => octet,
        }
    }

    fn pass(&mut self, octet: u8, next: Position) -> u8
        ensures next { self.new ≡ to next self.old.datagram }
        ensures leaves { result ≡ octet }
    {
        self.position = next;
        octet
    }

    fn command(&mut self, octet: u8) -> u8
        ensures next { self.new ≡ to Position.Index (fresh (command_of octet)) }
        ensures leaves { result ≡ octet }
    {
        self.datagram = Datagram::of(Command::from(octet));
        self.position = Position::Index;
        octet
    }

    fn adp_low(&mut self, low: u8) -> u8
        ensures next { self.new ≡ to (Position.AdpHigh low) self.old.datagram }
        ensures leaves { result ≡ carried (forwards_next (addressing_of self.old.datagram.command)) low }
    {
        self.position = Position::AdpHigh { low };
        with_carry(low, self.datagram.command.forwards_next())
    }

    // ADP is judged here, by the addresses as they are now.
    fn adp_high(&mut self, low: u8, high: u8, addresses: Addresses) -> u8
        ensures next { self.new ≡ to Position.AdoLow (judged self.old.datagram (pair low high) addresses) }
        ensures leaves { result ≡ carried (forwards_next (addressing_of self.old.datagram.command) && low == 255) high }
    {
        let adp = u16::from_le_bytes([low, high]);
        let addressing = self.datagram.command.addressing();
        self.datagram.adp = adp;
        self.datagram.addressed = addressing.holds(adp, addresses);
        self.position = Position::AdoLow;
        with_carry(high, self.datagram.command.forwards_next() && low == 255)
    }

    fn ado_high(&mut self, low: u8, high: u8) -> u8
        ensures next { self.new ≡ to Position.LenLow (offset self.old.datagram (pair low high)) }
        ensures leaves { result ≡ high }
    {
        self.datagram.ado = u16::from_le_bytes([low, high]);
        self.position = Position::LenLow;
        high
    }

    fn len_high(&mut self, low: u8, high: u8) -> u8
        ensures next { self.new ≡ to Position.IrqLow (measured self.old.datagram low high) }
        ensures leaves { result ≡ high }
    {
        self.datagram.length = u16::from_le_bytes([low, high % 8]);
        self.datagram.more = high >= 128;
        self.position = Position::IrqLow;
        high
    }

    fn data<F>(&mut self, index: u16, octet: u8, accessed: &Accessed<F>) -> u8
        ensures next { self.new ≡ to (data_from (index + 1) self.old.datagram.length) (tallied self.old.datagram accessed.now.read accessed.now.write) }
        ensures leaves { result ≡ shown self.old.datagram.command octet accessed.now.laid }
    {
        self.datagram.tally(accessed);
        self.position = data_from(u32::from(index) + 1, self.datagram.length);
        if self.datagram.command.ors() {
            octet | accessed.laid
        } else {
            accessed.laid
        }
    }

    fn counter_low(&mut self, low: u8) -> u8
        ensures next { self.new ≡ to (Position.CounterHigh (nat_lt 255 (low + added self.old.datagram))) self.old.datagram }
        ensures leaves { result ≡ (low + added self.old.datagram) % 256 }
    {
        let (leaves, carry) = low.overflowing_add(self.datagram.adds());
        self.position = Position::CounterHigh { carry };
        leaves
    }

    fn counter_high(&mut self, carry: bool, high: u8) -> u8
        ensures next { self.new ≡ to (followed_by self.old.datagram.more) self.old.datagram }
        ensures leaves { result ≡ carried carry high }
    {
        self.position = if self.datagram.more {
            Position::Command
        } else {
            Position::Padding
        };
        with_carry(high, carry)
    }
}

// The position of data octet `index` of `length`, or of the counter if there is none.
fn data_from(index: u32, length: u16) -> Position
    ensures { result ≡ data_from index length }
{
    if index < u32::from(length) {
        Position::Data {
            index: index as u16,
        }
    } else {
        Position::CounterLow
    }
}

fn with_carry(octet: u8, carry: bool) -> u8
    ensures { result ≡ carried carry octet }
{
    octet.wrapping_add(u8::from(carry))
}
