// The accesses that a frame's next octet makes, and the running frame after them.
ghost use Rattle.std.specs.Prelude.{◌≡◌, map};
ghost use Rattle.access.specs.declared.Direction.TheVariants.{Write as Writing};
ghost use Rattle.frame.specs.Frames.{answered};
ghost use Rattle.rules.specs.Octets.{through_mapping, accesses_at, wants, accesses_for, begun_running, waiting_after, mine};
ghost use Rattle.core_steps.specs.Accessing.{accesses_in, first_address, stepped_running};

use crate::registers::{register_at, with_register};
use access::Direction;
use frame::command::Addresses;
use frame::datagram::{Place, Wanted};
use frame::outcome::{Accessed, Outcome};
use frame::progress::{Progress, Reason};
use mapping::accesses::accesses_at;
use mapping::entity::Entity;
use mapping::mapped::{Access, Accesses};
use rules::data::{Core, Registers, Running};
use rules::fault::Fault;

// The accesses of an octet in one direction: none, one at a physical address, or those of a mapped octet.
// Three kinds and not one list: a physical octet makes one access, and fills no list for it.
#[derive(Clone, Copy)]
pub enum OctetAccesses {
    Nothing,
    One(u32),
    Mapped(Accesses),
}

fn wants(wanted: Wanted, direction: Direction) -> bool
    ensures { result ≡ wants wanted direction }
{
    match direction {
        Direction::Read => wanted.read,
        Direction::Write => wanted.write,
    }
}

fn accesses_in(entities: &[Entity; 8], direction: Direction, place: Place) -> OctetAccesses
    ensures { accesses_in direction result ≡ accesses_at entities.now direction place }
{
    match place {
        Place::Physical(address) => OctetAccesses::One(address),
        Place::Logical(address) => OctetAccesses::Mapped(accesses_at(entities, direction, address)),
    }
}

// The accesses that an octet makes in a direction, of what it wants.
pub fn accesses_for(
    entities: &[Entity; 8],
    direction: Direction,
    wanted: Option<Wanted>,
) -> OctetAccesses
    ensures { accesses_in direction result ≡ accesses_for entities.now direction wanted }
{
    match wanted {
        Some(wanted) if wants(wanted, direction) => accesses_in(entities, direction, wanted.place),
        _ => OctetAccesses::Nothing,
    }
}

fn first_write(writes: &OctetAccesses) -> Option<u32>
    ensures { result ≡ first_address (accesses_in Writing writes.now) }
{
    match writes {
        OctetAccesses::Nothing => None,
        OctetAccesses::One(address) => Some(*address),
        OctetAccesses::Mapped(list) => list.as_slice().first().map(|access| access.address),
    }
}

// A register octet that was written waits for the frame's end.
fn waiting_after(
    waiting: Registers,
    writes: &OctetAccesses,
    octet: u8,
    write: Outcome<(), Fault>,
) -> Registers
    ensures { result ≡ waiting_after waiting (accesses_in Writing writes.now) octet write }
{
    match (write, first_write(writes)) {
        (Outcome::Done(()), Some(address)) => with_register(waiting, register_at(address), octet),
        _ => waiting,
    }
}

// A frame begins.
pub fn begun_running(registers: &Registers) -> Running
    ensures { result ≡ begun_running registers.now }
{
    Running {
        progress: Progress::begin(),
        waiting: *registers,
    }
}

// The running frame takes an octet with what came of its accesses; the octet that leaves.
pub fn give(
    running: &mut Running,
    octet: u8,
    addresses: Addresses,
    writes: &OctetAccesses,
    accessed: &Accessed<Fault>,
) -> Result<u8, Reason>
    ensures next { running.new ≡ stepped_running running.old octet addresses (accesses_in Writing writes.now) accessed.now.read accessed.now.write }
    ensures answer { result ≡ answered running.old.progress octet accessed.now.laid }
{
    running.waiting = waiting_after(running.waiting, writes, octet, accessed.write);
    running.progress.octet(octet, addresses, accessed)
}

// The running frame, if one runs and the frame that is handed in carries the station's number.
pub fn mine(core: &Core, handed: u16) -> Option<Running>
    ensures { result ≡ mine core.now.number handed core.now.running }
{
    core.running.filter(|_| core.number == handed)
}
