// Memories of at most 61,440 octets, by the list of what they hold. A licensee implements `Memory` for its own RAM.
#![tactic(auto)]

ghost use Rattle.std.specs.Prelude.{◌≡◌, ℕ, ◌≤◌, List, length, slice_set};
ghost use Rattle.memory.specs.Octets.{Within, read_of, write_of};

pub mod fault;
pub mod joined;
pub mod operation;
pub mod row;
pub mod words;

use fault::MemoryFault;

// The most octets that a memory has.
pub const LIMIT: usize = 61_440;

// Refuses a place that a memory of `size` octets does not have: what each memory asks first, a licensee's too.
pub fn within(place: u32, size: usize) -> Result<(), MemoryFault>
    ensures { Within size place result }
{
    if (place as usize) < size {
        Ok(())
    } else {
        Err(MemoryFault::at(place))
    }
}

// A memory means a list of octets. Its length, the size, never changes.
pub trait Memory {
    ghost octets: { Self → List ℕ };

    // What each implementation proves: it means no more than 61,440 octets.
    ghost bounded: { (m : Self) → length (octets m) ≤ 61440 };

    fn size(&self) -> usize
        ensures { result ≡ length (octets self.now) };

    // The octet at a place. A device may have to move to read, so it takes the memory for writing; the list stays.
    fn read(&mut self, place: u32) -> Result<u8, MemoryFault>
        ensures value { result ≡ read_of (octets self.old) place }
        ensures same { octets self.new ≡ octets self.old };

    // Sets the octet at a place and no other. (`set` beyond the end of a list is the list itself.)
    fn write(&mut self, place: u32, octet: u8) -> Result<(), MemoryFault>
        ensures value { result ≡ write_of (octets self.old) place }
        ensures after { octets self.new ≡ slice_set (octets self.old) place octet };
}
