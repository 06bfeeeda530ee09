// The accesses that one logical octet makes: by entity, then by physical octet.
ghost use Rattle.std.specs.Prelude.{◌≡◌, ℕ, ◌+◌, ◌*◌, ◌^◌, ◌<◌, ◌≤◌, true, [], ◌∷◌, ◌++◌, length};
ghost use Rattle.bits.specs.Bits.{bit_at};
ghost use Rattle.mapping.specs.Mapping.{first_bit, first_octet, last_octet, turn_of, lands, access_for, landed_from, mapped_accesses};

use crate::entity::Entity;
use crate::mapped::{Access, Accesses};
use access::Direction;
use bits::share::Share;
use cover::{Span, lowest_covering};

impl Accesses {
    fn new() -> Accesses
        ensures { result.items ≡ [] }
    {
        Accesses {
            list: [Access::default(); 16],
            count: 0,
        }
    }

    // The accesses, in their order.
    pub fn as_slice(&self) -> &[Access]
        ensures { result.now ≡ self.now.items }
    {
        &self.list[0..self.count]
    }

    fn push(&mut self, access: Access)
        requires { length self.old.items < 16 }
        ensures { self.new.items ≡ self.old.items ++ access ∷ [] }
    {
        let place = self.count;
        self.list[place] = access;
        self.count = place + 1;
    }
}

// One access more, if there are bits for it.
fn push_access(found: &mut Accesses, address: u32, bits: u8, turn: u8)
    requires { length found.old.items < 16 }
    ensures list { found.new.items ≡ found.old.items ++ access_for address bits turn }
    ensures count { length found.new.items ≤ length found.old.items + 1 }
{
    if bits != 0 {
        let share = Share::of(bits, turn);
        found.push(Access { address, share });
    }
}

impl Entity {
    // How far a logical bit's place in its octet is turned where it lands.
    fn turn(&self) -> u8
        ensures { result ≡ turn_of self.now }
    {
        (8 + self.physical_bit % 8 - self.start_bit % 8) % 8
    }

    // Adds the accesses of those bits of the logical octet at `address`: the lower physical octet first.
    fn push_bits(&self, address: u64, bits: u8, found: &mut Accesses)
        requires room { length found.old.items ≤ 14 }
        requires within { address < self.now.logical + self.now.length }
        requires started { (i : ℕ) → i < 8 → bit_at bits i ≡ true → first_bit self.now ≤ 8 * address + i }
        ensures list { found.new.items ≡ found.old.items ++ landed_from self.now address bits }
        ensures count { length found.new.items ≤ length found.old.items + 2 }
    {
        let turn = self.turn();
        let first = self.landing(address);
        let octet = first / 8;
        let front = 0xff >> (first % 8);
        push_access(found, octet, bits & front, turn);
        push_access(found, octet + 1, bits & !front, turn);
    }

    // The physical bit where bit 0 of the logical octet at `address` lands, 0 if it comes before all of them.
    fn landing(&self, address: u64) -> u32
        requires { address < self.now.logical + self.now.length }
        ensures place { result ≡ lands self.now (8 * address) }
        ensures small { result < 2 ^ 21 }
    {
        let place = 8 * (u64::from(self.physical) + address) + u64::from(self.physical_bit % 8);
        place.saturating_sub(8 * u64::from(self.logical) + u64::from(self.start_bit % 8)) as u32
    }
}

// An entity is searched by the logical octets that it lies in; one without octets ends (0) before it begins (1), and so lies in none.
impl Span for Entity {
    ghost low = { λ e. first_octet e };

    ghost high = { λ e. last_octet e };

    fn first(&self) -> u64 {
        if self.length == 0 {
            1
        } else {
            u64::from(self.logical)
        }
    }

    fn last(&self) -> u64 {
        if self.length == 0 {
            0
        } else {
            u64::from(self.logical) + u64::from(self.length) - 1
        }
    }
}

// The accesses of the logical octet at `address` among up to eight entities: each that lies in the octet is looked at once, the lowest first,
// until every bit is served.
// Apart from `accesses_at`, so that a wrong operand there is refused at the call. The rest of the slice is searched anew: a `for` over all would
// look at the entities after the last free bit as well.
fn found_among(entities: &[Entity], direction: Direction, address: u64) -> Accesses
    requires { length entities.now ≤ 8 }
    ensures { result.items ≡ mapped_accesses entities.now direction address }
{
    let mut found = Accesses::new();
    let mut free = 0xff;
    let mut rest = entities;
    while free != 0
        && let Some(index) = lowest_covering(rest, address)
    {
        let entity = &rest[index];
        let covered = entity.bits_covered(direction).in_octet(address);
        entity.push_bits(address, covered & free, &mut found);
        free &= !covered;
        rest = &rest[index + 1..];
    }
    found
}

// The accesses of the logical octet at `address` in a direction: one for each entity that serves bits of it and each physical octet where
// these land, by entity, then by address.
pub fn accesses_at(entities: &[Entity; 8], direction: Direction, address: u64) -> Accesses
    ensures { result.items ≡ mapped_accesses entities.now direction address }
{
    found_among(entities, direction, address)
}
