// The accesses of one octet in turn: a refused one stops no other, and the first refusal is told.
// Reads and writes stand apart: a read lays bits of what it fetched, a write takes the octet and answers nothing.
ghost use Rattle.std.specs.Prelude.{◌≡◌, map};
ghost use Rattle.access.specs.declared.Direction.TheVariants.{Read as Reading, Write as Writing};
ghost use Rattle.core_steps.specs.Accessing.{accesses_in};
ghost use Rattle.rules.specs.Octets.{plain, through_mapping};
ghost use Rattle.rules.specs.Steps.{over, reads, writes, read_one, read_all, write_one, reads_from, writes_from};
ghost use Rattle.station.specs.Replies.{also, reads_so, writes_so};

use crate::calls::Station;
use access::{Direction, Side};
use bits::share::Share;
use core_steps::octets::OctetAccesses;
use frame::outcome::Outcome;
use memory::Memory;
use rules::data::Access;
use rules::fault::Fault;

// The bits fetched, with 0 where there are none; the octet with the fetched bits in the place of its own; and what came of the reads.
#[derive(Clone, Copy)]
pub(crate) struct Gathered {
    pub(crate) gathered: u8,
    pub(crate) shown: u8,
    pub(crate) outcome: Outcome<u8, Fault>,
}

pub(crate) fn plain(side: Side, direction: Direction, address: u32) -> Access
    ensures { result ≡ plain side direction address }
{
    Access {
        side,
        direction,
        address,
        mapped: false,
        share: Share::Whole,
    }
}

fn through_mapping(direction: Direction, access: mapping::mapped::Access) -> Access
    ensures { result ≡ through_mapping direction access }
{
    Access {
        side: Side::Master,
        direction,
        address: access.address,
        mapped: true,
        share: access.share,
    }
}

// The outcome so far, and one access more: the first refusal stands.
fn also<T: Drop>(so_far: Outcome<T, Fault>, next: Outcome<T, Fault>) -> Outcome<T, Fault>
    ensures { result ≡ also so_far next }
{
    match so_far {
        Outcome::Refused(_) => so_far,
        _ => next,
    }
}

impl<M: Memory> Station<M> {
    fn read_one(&mut self, access: Access, so_far: Gathered) -> Gathered
        ensures { reads_so self.new.station result ≡ read_one access (reads_so self.old.station so_far) (reads self.old.station access).after (reads self.old.station access).says }
    {
        // A `match`: two closures that build the struct would be no plainer.
        match self.fetch(access) {
            Ok(octet) => {
                let gathered = access.share.laid(so_far.gathered, octet);
                Gathered {
                    gathered,
                    shown: access.share.laid(so_far.shown, octet),
                    outcome: also(so_far.outcome, Outcome::Done(gathered)),
                }
            }
            Err(fault) => Gathered {
                outcome: also(so_far.outcome, Outcome::Refused(fault)),
                ..so_far
            },
        }
    }

    fn write_one(
        &mut self,
        access: Access,
        octet: u8,
        so_far: Outcome<(), Fault>,
    ) -> Outcome<(), Fault>
        ensures { writes_so self.new.station result ≡ write_one (writes_so self.old.station so_far) (writes self.old.station access octet).after (writes self.old.station access octet).says }
    {
        let stored = self.store(access, octet);
        also(so_far, stored.map_or_else(Outcome::Refused, Outcome::Done))
    }

    fn read_mapped(&mut self, list: &[mapping::mapped::Access], mut so_far: Gathered) -> Gathered
        ensures { reads_so self.new.station result ≡ read_all (reads_so self.old.station so_far) (map (through_mapping Reading) list.now) }
    {
        // A loop: the closure of a fold would change the station, of which a proof knows nothing after it.
        for access in list {
            so_far = self.read_one(through_mapping(Direction::Read, *access), so_far);
        }
        so_far
    }

    fn write_mapped(&mut self, list: &[mapping::mapped::Access], octet: u8) -> Outcome<(), Fault>
        ensures { writes_so self.new.station result ≡ writes_from self.old.station octet (map (through_mapping Writing) list.now) }
    {
        let mut so_far = Outcome::NotWanted;
        for access in list {
            so_far = self.write_one(through_mapping(Direction::Write, *access), octet, so_far);
        }
        so_far
    }

    pub(crate) fn read_all(&mut self, accesses: &OctetAccesses, octet: u8) -> Gathered
        ensures { reads_so self.new.station result ≡ reads_from self.old.station octet (accesses_in Reading accesses.now) }
    {
        let none = Gathered {
            gathered: 0,
            shown: octet,
            outcome: Outcome::NotWanted,
        };
        match accesses {
            OctetAccesses::Nothing => none,
            OctetAccesses::One(address) => {
                self.read_one(plain(Side::Master, Direction::Read, *address), none)
            }
            OctetAccesses::Mapped(list) => self.read_mapped(list.as_slice(), none),
        }
    }

    pub(crate) fn write_all(&mut self, accesses: &OctetAccesses, octet: u8) -> Outcome<(), Fault>
        ensures { writes_so self.new.station result ≡ writes_from self.old.station octet (accesses_in Writing accesses.now) }
    {
        match accesses {
            OctetAccesses::Nothing => Outcome::NotWanted,
            OctetAccesses::One(address) => self.write_one(
                plain(Side::Master, Direction::Write, *address),
                octet,
                Outcome::NotWanted,
            ),
            OctetAccesses::Mapped(list) => self.write_mapped(list.as_slice(), octet),
        }
    }
}
