// The register map, octet by octet.
ghost use Rattle.std.specs.Prelude.{◌≡◌, slice_index_or, slice_set};
ghost use Rattle.channel.specs.Areas.{status_in};
ghost use Rattle.rules.specs.Registers.{register_of, listed, may_write, new_registers, fixed_octet, octet_of_register, with_register, with_alias};
ghost use Rattle.rules.specs.Steps.{in_service_as, service_at};

use access::Side;
use access::field::Field;
use access::list::{replace, replaced};
use channel::{Channel, Service, Setting};
use mapping::entity::Entity;
use rules::data::{Core, Register, Registers};

// What stands at an address. (A function, since `Register` is another crate's.)
pub fn register_at(address: u32) -> Register
    ensures { result ≡ register_of address }
{
    match address {
        0x0000..=0x0009 => Register::Fixed {
            octet: address as u8,
        },
        0x0010..=0x0011 => Register::Address {
            octet: (address - 0x0010) as u8,
        },
        0x0012..=0x0013 => Register::Alias {
            octet: (address - 0x0012) as u8,
        },
        0x0600..=0x067F => Register::OfEntity {
            index: ((address - 0x0600) / 16) as u8,
            octet: ((address - 0x0600) % 16) as u8,
        },
        0x0800..=0x083F => Register::OfChannel {
            index: ((address - 0x0800) / 8) as u8,
            octet: ((address - 0x0800) % 8) as u8,
        },
        _ => Register::Unlisted,
    }
}

pub(crate) fn is_listed(register: Register) -> bool
    ensures { result ≡ listed register }
{
    !matches!(register, Register::Unlisted)
}

// The fixed octets nobody writes, the alias the local side, the rest the master.
pub(crate) fn may_write(side: Side, register: Register) -> bool
    ensures { result ≡ may_write side register }
{
    match register {
        Register::Unlisted | Register::Fixed { .. } => false,
        Register::Alias { .. } => side == Side::Local,
        Register::Address { .. } | Register::OfEntity { .. } | Register::OfChannel { .. } => {
            side == Side::Master
        }
    }
}

// The registers of a new station.
pub fn no_registers() -> Registers
    ensures { result ≡ new_registers }
{
    Registers {
        entities: [Entity::new(); 8],
        ..Registers::default()
    }
}

// The element at an index, or `other` past the last.
fn element_or<T: Copy>(list: &[T; 8], index: u8, other: T) -> T
    ensures { result ≡ slice_index_or list.now index other }
{
    list.get(index as usize).copied().unwrap_or(other)
}

// The service of a channel, if it is in service.
pub fn service_at(channels: &[Channel; 8], index: u8) -> Option<Service>
    ensures { result ≡ service_at channels.now index }
{
    element_or(channels, index, Channel::default()).service
}

pub fn set_service(channels: &mut [Channel; 8], index: u8, service: Service)
    ensures { channels.new ≡ slice_set channels.old index (in_service_as service) }
{
    let channel = Channel {
        service: Some(service),
    };
    // In place: `replaced` would copy all eight twice at each access of a window.
    replace(channels, index, channel);
}

// Eight entities, eight channels and the memory's size in units of 1,024 octets.
fn fixed_octet(units: u8, index: u8) -> u8
    ensures { result ≡ fixed_octet units index }
{
    match index {
        4 | 5 => 8,
        6 => units,
        _ => 0,
    }
}

// The octet of a register, of a memory of `units` times 1,024 octets and some.
pub fn register_octet(units: u8, core: &Core, register: Register) -> u8
    ensures { result ≡ octet_of_register units core.now.registers core.now.alias (λ n. status_in (service_at core.now.channels n)) register }
{
    match register {
        Register::Unlisted => 0,
        Register::Fixed { octet } => fixed_octet(units, octet),
        Register::Address { octet } => core.registers.address.octet(octet),
        Register::Alias { octet } => core.alias.octet(octet),
        Register::OfEntity { index, octet } => {
            let entity = element_or(&core.registers.entities, index, Entity::new());
            entity.octet(octet)
        }
        Register::OfChannel { index, octet } => {
            let channel = element_or(&core.channels, index, Channel::default());
            let setting = element_or(&core.registers.settings, index, Setting::default());
            setting.octet(octet, channel.status())
        }
    }
}

// The master's registers after a write.
pub fn with_register(registers: Registers, register: Register, octet: u8) -> Registers
    ensures { result ≡ with_register registers register octet }
{
    match register {
        Register::Unlisted | Register::Fixed { .. } | Register::Alias { .. } => registers,
        Register::Address { octet: place } => Registers {
            address: registers.address.with_octet(place, octet),
            ..registers
        },
        Register::OfEntity {
            index,
            octet: place,
        } => {
            let entity = element_or(&registers.entities, index, Entity::new());
            Registers {
                entities: replaced(registers.entities, index, entity.with_octet(place, octet)),
                ..registers
            }
        }
        Register::OfChannel {
            index,
            octet: place,
        } => {
            let setting = element_or(&registers.settings, index, Setting::default());
            Registers {
                settings: replaced(registers.settings, index, setting.with_octet(place, octet)),
                ..registers
            }
        }
    }
}

// The alias after a write of the local side.
pub fn with_alias(alias: u16, register: Register, octet: u8) -> u16
    ensures { result ≡ with_alias alias register octet }
{
    match register {
        Register::Alias { octet: place } => alias.with_octet(place, octet),
        _ => alias,
    }
}
