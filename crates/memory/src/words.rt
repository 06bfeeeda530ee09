// 16-bit words: an even place is the low half of its word, an odd one the high half.
ghost use Rattle.std.specs.Prelude.{◌≡◌, ◌+◌, ◌*◌, ◌/◌, ◌%◌, ◌≤◌, length};
ghost use Rattle.memory.specs.Cuts.{counted};
ghost use Rattle.memory.specs.Halves.{halves, halves-bounded, half_at, with_half};

use crate::fault::MemoryFault;
use crate::{LIMIT, Memory, within};

// A memory over a lent slice of words. What the slice holds beyond 61,440 octets is not part of it.
// Apart from `Row`, since a cell has two places here, read and replaced by masks and shifts.
#[derive(Drop)]
pub struct Words<'a> {
    cells: &'a mut [u16],
}

impl<'a> Words<'a> {
    pub fn new(cells: &'a mut [u16]) -> Words<'a>
        ensures { result.cells.now ≡ cells.old }
    {
        Words { cells }
    }
}

// How far above the lowest bit of its word the half at a place stands.
fn shift(place: u32) -> u32
    ensures { result ≡ 8 * (place % 2) }
{
    8 * (place % 2)
}

// The half of a word that stands at a place.
#[tactic(auto, using(crate::proofs::Masks::half_is))]
fn half(word: u16, place: u32) -> u8
    ensures { result ≡ half_at word place }
{
    ((word >> shift(place)) & 0xff) as u8
}

// The word with that half replaced, and the other kept.
#[tactic(auto, using(crate::proofs::Masks::with_half_is))]
fn with_half(word: u16, place: u32, octet: u8) -> u16
    ensures { result ≡ with_half word place octet }
{
    let shift = shift(place);
    (word & !(0xff << shift)) | (u16::from(octet) << shift)
}

impl Memory for Words<'_> {
    ghost octets = { λ m. halves (counted 30720 m.cells.now) };

    ghost bounded = { λ m. halves-bounded m.cells.now };

    #[tactic(auto, using(crate::proofs::Halves::length_words))]
    fn size(&self) -> usize
        ensures value { result ≡ length (halves (counted 30720 self.now.cells.now)) }
        ensures within { result ≤ 2 * length self.now.cells.now }
    {
        2 * self.cells.len().min(LIMIT / 2)
    }

    fn read(&mut self, place: u32) -> Result<u8, MemoryFault> {
        within(place, self.size())?;
        Ok(half(self.cells[place as usize / 2], place))
    }

    fn write(&mut self, place: u32, octet: u8) -> Result<(), MemoryFault> {
        within(place, self.size())?;
        let word = &mut self.cells[place as usize / 2];
        *word = with_half(*word, place, octet);
        Ok(())
    }
}
