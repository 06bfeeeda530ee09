// What a station is made of beside its memory, the calls that it takes and the answers that it gives: plain data.
use crate::fault::Fault;
use access::{Direction, Side};
use bits::share::Share;
use channel::{Channel, Setting};
use frame::outcome::Outcome;
use frame::progress::{Progress, Verdict};
use mapping::entity::Entity;

// The registers that the master writes. (The alias is the local side's and stands in the core.)
#[derive(Clone, Copy, Default)]
pub struct Registers {
    pub address: u16,
    pub entities: [Entity; 8],
    pub settings: [Setting; 8],
}

// What stands at an address below 0x1000: octet `octet` of one of these, or nothing.
// `Unlisted` is a row of the register map as the others are: it reads 0, keeps nothing, and is refused with 1.
#[derive(Clone, Copy)]
pub enum Register {
    Unlisted,
    Fixed { octet: u8 },
    Address { octet: u8 },
    Alias { octet: u8 },
    OfEntity { index: u8, octet: u8 },
    OfChannel { index: u8, octet: u8 },
}

// The running frame: where it stands, and the registers as its kept end will set them.
#[derive(Clone, Copy)]
pub struct Running {
    pub progress: Progress,
    pub waiting: Registers,
}

// The station beside its memory. Channels stand apart from their settings, which also wait in a running frame, where there are no services.
#[derive(Clone, Copy)]
pub struct Core {
    pub number: u16,
    pub registers: Registers,
    pub alias: u16,
    pub channels: [Channel; 8],
    pub running: Option<Running>,
}

// One read or write at one physical address. A mapped one may have only a part of its octet.
// Two facts, since an access that is not mapped has a share as well, the whole octet.
#[derive(Clone, Copy)]
pub struct Access {
    pub side: Side,
    pub direction: Direction,
    pub address: u32,
    pub mapped: bool,
    pub share: Share,
}

// What an access reaches, once no question refuses it: a register octet, a place of the memory that is in no area in service, or an offset of
// the window of a channel in service.
#[derive(Clone, Copy)]
pub enum Target {
    Register(Register),
    Free { place: u32 },
    Window { channel: u8, offset: u16 },
}

// The five calls. Those of a frame carry the number of the frame that is handed in.
#[derive(Clone, Copy, PartialEq, Eq, Debug)]
pub enum Call {
    Begin,
    Octet { frame: u16, octet: u8 },
    End { frame: u16, verdict: Verdict },
    Read { address: u32 },
    Write { address: u32, octet: u8 },
}

// `Kept` names the lowest enabling that was refused, if any. `Refused` is a call that did nothing.
// One enum for the answers of all five calls, since a history is a list of them; the calls themselves answer a `Result`.
#[derive(Clone, Copy, PartialEq, Eq, Debug)]
pub enum Answer {
    Running,
    Forwards {
        octet: u8,
        read: Outcome<u8, Fault>,
        write: Outcome<(), Fault>,
    },
    Kept {
        enabling: Option<Fault>,
    },
    Dropped(Fault),
    Got(u8),
    Stored,
    Refused(Fault),
}
