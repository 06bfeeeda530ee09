// The register octets of a channel, and the window that they ask for.
ghost use Rattle.std.specs.Prelude.{◌≡◌};
ghost use Rattle.channel.specs.Settings.{octet_of, with_octet_at, window_of, kind_of, stores_of, denial_number, SettingsReadBack};
ghost use Rattle.channel.specs.Windows.{area_size, in_memory, offset_in};

use access::Side;
use access::field::Field;

// A buffered channel always has a latest message to read, once one is written; a mailbox hands each message over once.
#[derive(Clone, Copy, PartialEq, Eq, Debug)]
pub enum Kind {
    Buffered,
    Mailbox,
}

// Octets 0 and 1 are the start, 2 and 3 the length, 4 is control, 5 the status that the service shows, 6 holds enable in bit 0, and 7 is 0.
#[derive(Clone, Copy, PartialEq, Eq, Debug, Default)]
pub struct Setting {
    pub start: u16,
    pub length: u16,
    pub control: u8,
    pub enable: bool,
}

// What an accepted enabling fixes: the window's first address and its length in octets, the kind, and the side that stores; the other one fetches.
#[derive(Clone, Copy, PartialEq, Eq, Debug)]
pub struct Window {
    pub start: u16,
    pub length: u16,
    pub kind: Kind,
    pub stores: Side,
}

// Why an enabling is refused, with its number: a control field that is not listed, a length below 2, an area that the memory does not have, an area
// that touches one in service.
#[derive(Clone, Copy, PartialEq, Eq, Debug)]
pub enum Denial {
    Control = 19,
    Length = 20,
    Memory = 21,
    Overlap = 22,
}

impl Denial {
    pub fn number(self) -> u8
        ensures { result ≡ denial_number self }
    {
        self as u8
    }
}

impl Setting {
    // The register octet at an index; `status` is what stands in octet 5.
    pub fn octet(self, index: u8, status: u8) -> u8
        ensures { result ≡ octet_of self status index }
    {
        match index {
            0..=1 => self.start.octet(index),
            2..=3 => self.length.octet(index - 2),
            4 => self.control,
            5 => status,
            6 => u8::from(self.enable),
            _ => 0,
        }
    }

    // The settings once the master has written an octet: of control seven bits are kept, of enable one, of status and of octet 7 none.
    pub fn with_octet(self, index: u8, octet: u8) -> Setting
        ensures { result ≡ with_octet_at self index octet }
    {
        match index {
            0..=1 => Setting {
                start: self.start.with_octet(index, octet),
                ..self
            },
            2..=3 => Setting {
                length: self.length.with_octet(index - 2, octet),
                ..self
            },
            4 => Setting {
                control: octet % 128,
                ..self
            },
            6 => Setting {
                enable: octet % 2 == 1,
                ..self
            },
            _ => self,
        }
    }

    // The window that the settings ask for, if both control fields are listed.
    pub(crate) fn window(self) -> Option<Window>
        ensures { result ≡ window_of self }
    {
        let kind = kind_of(self.control)?;
        let stores = stores_of(self.control)?;
        Some(Window {
            start: self.start,
            length: self.length,
            kind,
            stores,
        })
    }
}

// Control bits 1 and 0. (Two readings of one octet, of which a `TryFrom<u8>` would not say which bits it reads.)
fn kind_of(control: u8) -> Option<Kind>
    ensures { result ≡ kind_of control }
{
    match control % 4 {
        0 => Some(Kind::Buffered),
        2 => Some(Kind::Mailbox),
        _ => None,
    }
}

// Control bits 3 and 2: 0, the master fetches; 1, it stores.
fn stores_of(control: u8) -> Option<Side>
    ensures { result ≡ stores_of control }
{
    match control / 4 % 4 {
        0 => Some(Side::Local),
        1 => Some(Side::Master),
        _ => None,
    }
}

impl Window {
    // The octets of the area: one buffer for a mailbox, three for a buffered channel.
    pub(crate) fn area_size(self) -> u32
        ensures { result ≡ area_size self }
    {
        match self.kind {
            Kind::Mailbox => u32::from(self.length),
            Kind::Buffered => 3 * u32::from(self.length),
        }
    }

    // Does the area lie in a memory of `size` octets, whose place 0 has address 0x1000?
    pub(crate) fn in_memory(self, size: usize) -> bool
        ensures { result ≡ in_memory size self }
    {
        let first = self.start.checked_sub(0x1000);
        first.is_some_and(|first| usize::from(first) + self.area_size() as usize <= size)
    }

    // How far an address of the area stands from the window's start.
    pub(crate) fn offset(self, address: u32) -> u32
        ensures { result ≡ offset_in self address }
    {
        address.saturating_sub(u32::from(self.start))
    }
}

// A written register octet reads back as the bits that are kept of it, octet 5 as the status, and every other one as before.
pub fn settings_read_back()
    ensures { SettingsReadBack }
{}
