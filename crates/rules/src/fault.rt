// Refusals.
ghost use Rattle.std.specs.Prelude.{◌≡◌};
ghost use Rattle.rules.specs.Faults.{reason_number, number_of, address_of, channel_of};
ghost use Rattle.rules.specs.declared.fault.Fault.TheVariants.{Memory as FaultMemory};

use channel::{Denial, Refusal};
use memory::fault::MemoryFault;
use std::error::Error;
use std::fmt;

// Why the station refuses. `Channel`: the questions of a channel's area; `Frame`: a frame that is dropped, or an octet too many; `Enabling`: a
// service that does not begin.
#[derive(Clone, Copy, PartialEq, Eq, Debug)]
pub enum Reason {
    NoRegister,
    NotWritable,
    InService,
    Channel(Refusal),
    NotMappable,
    SplitOctet,
    FrameRuns,
    NoSuchFrame,
    Frame(frame::progress::Reason),
    Enabling(Denial),
}

// The memory's own refusal, whole, with the place that it named; or the station's, with the physical address, which is 0 for frames and
// enablings, and the channel, if it speaks of one.
#[derive(Clone, Copy, PartialEq, Eq, Debug)]
pub enum Fault {
    Memory(MemoryFault),
    Station {
        reason: Reason,
        address: u32,
        channel: Option<u8>,
    },
}

impl From<MemoryFault> for Fault {
    ghost from_gives = { λ e r. r ≡ FaultMemory e };

    fn from(fault: MemoryFault) -> Fault {
        Fault::Memory(fault)
    }
}

impl Reason {
    // The number by which the rules tell the refusal outside; in the code it is this enum.
    pub fn number(self) -> u8
        ensures { result ≡ reason_number self }
    {
        match self {
            Reason::NoRegister => 1,
            Reason::NotWritable => 2,
            Reason::InService => 3,
            Reason::Channel(refusal) => refusal.number(),
            Reason::NotMappable => 12,
            Reason::SplitOctet => 13,
            Reason::FrameRuns => 14,
            Reason::NoSuchFrame => 15,
            Reason::Frame(reason) => reason.number(),
            Reason::Enabling(denial) => denial.number(),
        }
    }
}

impl Fault {
    pub fn number(self) -> u8
        ensures { result ≡ number_of self }
    {
        match self {
            Fault::Memory(fault) => fault.number(),
            Fault::Station { reason, .. } => reason.number(),
        }
    }

    // The physical address; of the memory's refusal, that of the place it named.
    pub fn address(self) -> u32
        ensures { result ≡ address_of self }
    {
        match self {
            Fault::Memory(fault) => fault.place().saturating_add(0x1000),
            Fault::Station { address, .. } => address,
        }
    }

    // The channel, or 255, the number that the rules have for none; in the code none is `None`.
    pub fn channel(self) -> u8
        ensures { result ≡ channel_of self }
    {
        match self {
            Fault::Memory(_) => 255,
            Fault::Station { channel, .. } => channel.unwrap_or(255),
        }
    }
}

// The number, and the place that the memory named, or the address and the channel.
impl fmt::Display for Fault {
    fn fmt<W: fmt::Write>(&self, f: &mut fmt::Formatter<W>) -> fmt::Result {
        match self {
            Fault::Memory(fault) => write!(f, "{fault}"),
            Fault::Station { address, .. } => {
                let number = self.number();
                let channel = self.channel();
                write!(f, "{number} at 0x{address:04X} channel {channel}")
            }
        }
    }
}

impl Error for Fault {}
