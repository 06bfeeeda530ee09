// The one refusal of a memory.
ghost use Rattle.std.specs.Prelude.{◌≡◌};
ghost use Rattle.memory.specs.Octets.{outside, number_of, place_of};

use std::error::Error;
use std::fmt;

// The memory does not have this place.
#[derive(Clone, Copy, PartialEq, Eq, Debug)]
pub struct MemoryFault {
    place: u32,
}

impl MemoryFault {
    pub fn at(place: u32) -> MemoryFault
        ensures { result ≡ outside place }
    {
        MemoryFault { place }
    }

    pub fn number(&self) -> u8
        ensures { result ≡ number_of self.now }
    {
        4
    }

    pub fn place(&self) -> u32
        ensures { result ≡ place_of self.now }
    {
        self.place
    }
}

impl fmt::Display for MemoryFault {
    fn fmt<W: fmt::Write>(&self, f: &mut fmt::Formatter<W>) -> fmt::Result {
        let number = self.number();
        write!(f, "{number} at place {}", self.place)
    }
}

impl Error for MemoryFault {}
