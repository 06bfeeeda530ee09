// Which logical bits an entity covers in a direction, and which entity serves a bit.
ghost use Rattle.std.specs.Prelude.{◌≡◌, ◌+◌, ◌*◌, ◌&&◌, map, nat_le};
ghost use Rattle.bits.specs.Bits.{octet_of};
ghost use Rattle.mapping.specs.Mapping.{allows, bits_covered, server};

use crate::entity::Entity;
use access::Direction;
use cover::{Span, lowest_covering};

// Logical bits from the first to the last; none, if the last stands before the first.
#[derive(Clone, Copy, PartialEq, Eq, Debug)]
pub struct BitRange {
    pub first: u64,
    pub last: u64,
}

// No logical bit has this number or a higher one: there are 2^32 logical octets.
const BITS: u64 = 1 << 35;

impl Span for BitRange {
    ghost low = { λ r. r.first };

    ghost high = { λ r. r.last };

    fn first(&self) -> u64 {
        self.first
    }

    fn last(&self) -> u64 {
        self.last
    }
}

impl BitRange {
    // Its bits in the logical octet at `address`, as a mask.
    pub(crate) fn in_octet(self, address: u64) -> u8
        ensures { result ≡ octet_of (λ i. nat_le self.first (8 * address + i) && nat_le (8 * address + i) self.last) }
    {
        bits_between(self.first, self.last, address)
    }
}

// The bits of the logical octet at `address` that stand from the first to the last logical bit.
fn bits_between(first: u64, last: u64, address: u64) -> u8
    ensures { result ≡ octet_of (λ i. nat_le first (8 * address + i) && nat_le (8 * address + i) last) }
{
    let front = first / 8;
    let back = last / 8;
    if address < front || back < address {
        return 0;
    }
    let low = if address == front { first % 8 } else { 0 };
    let high = if address == back { last % 8 } else { 7 };
    (0xff << low) & (0xff >> (7 - high))
}

impl Entity {
    fn allows(&self, direction: Direction) -> bool
        ensures { result ≡ allows self.now direction }
    {
        match direction {
            Direction::Read => self.reads,
            Direction::Write => self.writes,
        }
    }

    // The logical bits that it covers in the direction: from the start bit to the stop bit of its last octet.
    pub fn bits_covered(&self, direction: Direction) -> BitRange
        ensures { result ≡ bits_covered direction self.now }
    {
        if !(self.active && self.allows(direction) && self.length > 0) {
            // None is a range that ends before it begins: an `Option` beside it would say none in two ways.
            return BitRange { first: 1, last: 0 };
        }
        let first = u64::from(self.logical);
        let last = 8 * (first + u64::from(self.length) - 1) + u64::from(self.stop_bit % 8);
        BitRange {
            first: 8 * first + u64::from(self.start_bit % 8),
            last: last.min(BITS - 1),
        }
    }
}

// What each entity covers.
fn ranges(entities: &[Entity; 8], direction: Direction) -> [BitRange; 8]
    ensures { result ≡ map (bits_covered direction) entities.now }
{
    entities.map(|entity| entity.bits_covered(direction))
}

// The entity that serves a logical bit: the lowest active one of the direction that covers it.
pub fn server(entities: &[Entity; 8], direction: Direction, bit: u64) -> Option<usize>
    ensures { result ≡ server entities.now direction bit }
{
    let ranges = ranges(entities, direction);
    lowest_covering(&ranges, bit)
}
