// The commands of a datagram: whom each addresses, and what it asks for.
ghost use Rattle.std.specs.Prelude.{◌≡◌};
ghost use Rattle.frame.specs.Commands.{command_of, addressing_of, action_of, is_addressed, forwards_next, shall_read, shall_write, write_worth, ors};

// `Other` is every other octet, and no refusal: its datagram is forwarded as it came.
#[derive(Clone, Copy)]
pub enum Command {
    Aprd,
    Apwr,
    Aprw,
    Fprd,
    Fpwr,
    Fprw,
    Brd,
    Bwr,
    Brw,
    Lrd,
    Lwr,
    Lrw,
    Armw,
    Frmw,
    Other,
}

// Whom a command addresses: the station that it reaches with ADP 0, the one whose address or alias is ADP, every station, whoever maps the
// logical address, or nobody. `Nobody` is a row of the table like the others, so that each rule is total.
#[derive(Clone, Copy)]
pub enum Addressing {
    ByPosition,
    ByAddress,
    Broadcast,
    ByMapping,
    Nobody,
}

// What a command asks for. `ReadOrWrite`: of the addressed station a read, of the others a write. `Nothing` is a row too: `Other` has an action.
#[derive(Clone, Copy)]
pub enum Action {
    Read,
    Write,
    ReadWrite,
    ReadOrWrite,
    Nothing,
}

// The addresses that a station answers to: the one that the master set, and the local side's alias.
#[derive(Clone, Copy)]
pub struct Addresses {
    pub station: u16,
    pub alias: u16,
}

// Total, and so no `TryFrom`.
impl From<u8> for Command {
    ghost from_gives = { λ octet r. r ≡ command_of octet };

    fn from(octet: u8) -> Command {
        match octet {
            1 => Command::Aprd,
            2 => Command::Apwr,
            3 => Command::Aprw,
            4 => Command::Fprd,
            5 => Command::Fpwr,
            6 => Command::Fprw,
            7 => Command::Brd,
            8 => Command::Bwr,
            9 => Command::Brw,
            10 => Command::Lrd,
            11 => Command::Lwr,
            12 => Command::Lrw,
            13 => Command::Armw,
            14 => Command::Frmw,
            _ => Command::Other,
        }
    }
}

impl Command {
    pub(crate) fn addressing(self) -> Addressing
        ensures { result ≡ addressing_of self }
    {
        match self {
            Command::Aprd | Command::Apwr | Command::Aprw | Command::Armw => Addressing::ByPosition,
            Command::Fprd | Command::Fpwr | Command::Fprw | Command::Frmw => Addressing::ByAddress,
            Command::Brd | Command::Bwr | Command::Brw => Addressing::Broadcast,
            Command::Lrd | Command::Lwr | Command::Lrw => Addressing::ByMapping,
            Command::Other => Addressing::Nobody,
        }
    }

    pub(crate) fn action(self) -> Action
        ensures { result ≡ action_of self }
    {
        match self {
            Command::Aprd | Command::Fprd | Command::Brd | Command::Lrd => Action::Read,
            Command::Apwr | Command::Fpwr | Command::Bwr | Command::Lwr => Action::Write,
            Command::Aprw | Command::Fprw | Command::Brw | Command::Lrw => Action::ReadWrite,
            Command::Armw | Command::Frmw => Action::ReadOrWrite,
            Command::Other => Action::Nothing,
        }
    }

    // Whether ADP leaves as one more than it came.
    pub(crate) fn forwards_next(self) -> bool
        ensures { result ≡ forwards_next (addressing_of self) }
    {
        matches!(
            self.addressing(),
            Addressing::ByPosition | Addressing::Broadcast
        )
    }

    // Whether a fetched octet is ORed into the one that came.
    pub(crate) fn ors(self) -> bool
        ensures { result ≡ ors self }
    {
        matches!(self, Command::Brd | Command::Brw)
    }
}

impl Addressing {
    // Whether a datagram that came with this ADP addresses the station. (Of a logical one the mapping decides, octet by octet.)
    pub(crate) fn holds(self, adp: u16, addresses: Addresses) -> bool
        ensures { result ≡ is_addressed self adp addresses }
    {
        match self {
            Addressing::ByPosition => adp == 0,
            Addressing::ByAddress => adp == addresses.station || adp == addresses.alias,
            Addressing::Broadcast | Addressing::ByMapping => true,
            Addressing::Nobody => false,
        }
    }
}

impl Action {
    pub(crate) fn reads(self, addressed: bool) -> bool
        ensures { result ≡ shall_read self addressed }
    {
        match self {
            Action::Read | Action::ReadWrite | Action::ReadOrWrite => addressed,
            Action::Write | Action::Nothing => false,
        }
    }

    pub(crate) fn writes(self, addressed: bool) -> bool
        ensures { result ≡ shall_write self addressed }
    {
        match self {
            Action::Write | Action::ReadWrite => addressed,
            Action::ReadOrWrite => !addressed,
            Action::Read | Action::Nothing => false,
        }
    }

    // What a write that succeeds adds to the working counter.
    pub(crate) fn write_worth(self) -> u8
        ensures { result ≡ write_worth self }
    {
        match self {
            Action::ReadWrite => 2,
            _ => 1,
        }
    }
}
