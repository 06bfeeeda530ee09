// The questions before an access that need no memory, in their order: the first no decides.
ghost use Rattle.std.specs.Prelude.{◌≡◌, ◌-◌, not, ◌&&◌, None, Some, slice_index_or};
ghost use Rattle.rules.specs.declared.fault.Fault.TheVariants.{Station as Refuses};
ghost use Rattle.rules.specs.declared.data.Target.TheVariants.{Free as InFree};
ghost use Rattle.rules.specs.Questions.{channel_at, setting_held, asked_register, asked_channel, asked_area, mappable};
ghost use Rattle.rules.specs.Steps.{known};

use crate::registers::{is_listed, may_write, service_at};
use access::Direction;
use bits::share::Share;
use channel::{Channel, Facts};
use cover::lowest_covering;
use rules::data::{Access, Register, Target};
use rules::fault::{Fault, Reason};

// What is known of a channel, if it is in service.
fn facts_at(channels: &[Channel; 8], index: u8) -> Option<Facts>
    ensures { result ≡ slice_index_or (known channels.now) index None }
{
    service_at(channels, index).map(|service| service.facts())
}

// The channel in whose area an address lies.
#[tactic(auto, using(crate::proofs::Known::found_at))]
fn channel_at(channels: &[Channel; 8], address: u32) -> Option<u8>
    ensures { result ≡ channel_at (known channels.now) address }
{
    lowest_covering(channels, u64::from(address)).map(|index| index as u8)
}

// A channel in service keeps its octets 0 to 4.
fn ask_setting(channels: &[Channel; 8], register: Register, address: u32) -> Result<Target, Fault>
    ensures { result ≡ setting_held (known channels.now) register address }
{
    match register {
        Register::OfChannel { index, octet } if octet < 5 && facts_at(channels, index).is_some() =>
            Err(refused_for(index, Reason::InService, address)),
        _ => Ok(Target::Register(register)),
    }
}

// Is a register listed there; for a write, may this side write it; is its channel out of service?
pub fn ask_register(
    channels: &[Channel; 8],
    access: Access,
    register: Register,
) -> Result<Target, Fault>
    ensures { result ≡ asked_register (known channels.now) access register }
{
    if !is_listed(register) {
        return Err(refused(Reason::NoRegister, access.address));
    }
    if access.direction == Direction::Read {
        return Ok(Target::Register(register));
    }
    if !may_write(access.side, register) {
        return Err(refused(Reason::NotWritable, access.address));
    }
    ask_setting(channels, register, access.address)
}

// A refusal that speaks of no channel. (Two, since an `Option` at each call would say less.)
pub fn refused(reason: Reason, address: u32) -> Fault
    ensures { result ≡ Refuses reason address None }
{
    Fault::Station {
        reason,
        address,
        channel: None,
    }
}

// A refusal that speaks of a channel.
pub(crate) fn refused_for(channel: u8, reason: Reason, address: u32) -> Fault
    ensures { result ≡ Refuses reason address (Some channel) }
{
    Fault::Station {
        reason,
        address,
        channel: Some(channel),
    }
}

// The place of an access that is in no area.
fn free(access: Access) -> Target
    ensures { result ≡ InFree (access.address - 0x1000) }
{
    Target::Free {
        place: access.address.saturating_sub(0x1000),
    }
}

// Is the octet whole; then the channel's own questions.
fn ask_channel(index: u8, facts: Option<Facts>, access: Access) -> Result<Target, Fault>
    ensures { result ≡ asked_channel index facts access }
{
    let Some(facts) = facts else {
        return Ok(free(access));
    };
    if matches!(access.share, Share::Part { .. }) {
        return Err(refused_for(index, Reason::SplitOctet, access.address));
    }
    let offset = facts
        .ask(access.side, access.direction, access.address)
        .map_err(|refusal| refused_for(index, Reason::Channel(refusal), access.address))?;
    Ok(Target::Window {
        channel: index,
        offset,
    })
}

// What an access reaches at a place that the memory has.
pub fn ask_area(channels: &[Channel; 8], access: Access) -> Result<Target, Fault>
    ensures { result ≡ asked_area (known channels.now) access (channel_at (known channels.now) access.address) }
{
    match channel_at(channels, access.address) {
        None => Ok(free(access)),
        Some(index) => ask_channel(index, facts_at(channels, index), access),
    }
}

// A mapped access reaches addresses from 0x1000 to 0xFFFF alone.
pub fn is_mappable(access: Access) -> bool
    ensures { result ≡ not (access.mapped && not (mappable access.address)) }
{
    !access.mapped || (0x1000..0x10000).contains(&access.address)
}
