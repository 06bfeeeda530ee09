// Two memories of any kind, the second following the first.
ghost use Rattle.std.specs.Prelude.{◌≡◌, length};
ghost use Rattle.memory.specs.Cuts.{joined, joined-bounded};
ghost use Rattle.memory.specs.Parts.{Lies};

use crate::fault::MemoryFault;
use crate::{LIMIT, Memory};

// A place of the first or of the second memory.
#[derive(Clone, Copy)]
pub enum Part {
    First(u32),
    Second(u32),
}

// What both hold beyond 61,440 octets is not part of the memory.
#[derive(Drop)]
pub struct Joined<F: Memory, S: Memory> {
    first: F,
    second: S,
}

impl<F: Memory, S: Memory> Joined<F, S> {
    pub fn new(first: F, second: S) -> Joined<F, S>
        ensures first { result.first ≡ first }
        ensures second { result.second ≡ second }
    {
        Joined { first, second }
    }

    // Where a place of the whole lies.
    #[tactic(auto, using(crate::proofs::Joins::length_joined))]
    fn part(&self, place: u32) -> Result<Part, MemoryFault>
        ensures { Lies (length (F.octets self.now.first)) (length (S.octets self.now.second)) place result }
    {
        // Each size is asked once, and compared with the place alone: a sum of both, cut, costs a join of joins twice the time.
        let first = self.first.size() as u32;
        let second = self.second.size() as u32;
        if place as usize >= LIMIT {
            Err(MemoryFault::at(place))
        } else if place < first {
            Ok(Part::First(place))
        } else if place - first < second {
            Ok(Part::Second(place - first))
        } else {
            Err(MemoryFault::at(place))
        }
    }
}

impl<F: Memory, S: Memory> Memory for Joined<F, S> {
    ghost octets = { λ m. joined (F.octets m.first) (S.octets m.second) };

    ghost bounded = { λ m. joined-bounded (F.octets m.first) (S.octets m.second) };

    #[tactic(auto, using(crate::proofs::Joins::length_joined))]
    fn size(&self) -> usize {
        (self.first.size() + self.second.size()).min(LIMIT)
    }

    fn read(&mut self, place: u32) -> Result<u8, MemoryFault> {
        match self.part(place)? {
            Part::First(at) => self.first.read(at),
            Part::Second(at) => self.second.read(at),
        }
    }

    fn write(&mut self, place: u32, octet: u8) -> Result<(), MemoryFault> {
        match self.part(place)? {
            Part::First(at) => self.first.write(at, octet),
            Part::Second(at) => self.second.write(at, octet),
        }
    }
}
