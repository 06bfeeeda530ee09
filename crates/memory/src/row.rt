// Octets in a row.
ghost use Rattle.std.specs.Prelude.{◌≡◌, ◌≤◌, length};
ghost use Rattle.memory.specs.Cuts.{counted, counted-bounded};

use crate::fault::MemoryFault;
use crate::{LIMIT, Memory, within};

// A memory over a lent slice of octets. What the slice holds beyond 61,440 octets is not part of it.
#[derive(Drop)]
pub struct Row<'a> {
    cells: &'a mut [u8],
}

impl<'a> Row<'a> {
    pub fn new(cells: &'a mut [u8]) -> Row<'a>
        ensures { result.cells.now ≡ cells.old }
    {
        Row { cells }
    }
}

impl Memory for Row<'_> {
    ghost octets = { λ m. counted 61440 m.cells.now };

    ghost bounded = { λ m. counted-bounded 61440 m.cells.now };

    #[tactic(auto, using(crate::proofs::Cuts::length_row))]
    fn size(&self) -> usize
        ensures value { result ≡ length (counted 61440 self.now.cells.now) }
        ensures within { result ≤ length self.now.cells.now }
    {
        self.cells.len().min(LIMIT)
    }

    fn read(&mut self, place: u32) -> Result<u8, MemoryFault> {
        within(place, self.size())?;
        Ok(self.cells[place as usize])
    }

    fn write(&mut self, place: u32, octet: u8) -> Result<(), MemoryFault> {
        within(place, self.size())?;
        self.cells[place as usize] = octet;
        Ok(())
    }
}
