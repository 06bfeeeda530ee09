// Any list of reads and writes on any memory.
ghost use Rattle.std.specs.Prelude.{◌≡◌};
ghost use Rattle.memory.specs.Operations.{performed, performed_all, read_after};

use crate::Memory;
use crate::fault::MemoryFault;

#[derive(Clone, Copy, PartialEq, Eq, Debug)]
pub enum Operation {
    Read { place: u32 },
    Write { place: u32, octet: u8 },
}

// One operation, done or refused.
fn perform<M: Memory>(memory: &mut M, operation: Operation)
    ensures { M.octets memory.new ≡ performed (M.octets memory.old) operation }
{
    // A `match` and no closures: operations are data that a caller hands in.
    match operation {
        Operation::Read { place } => {
            let _ = memory.read(place);
        }
        Operation::Write { place, octet } => {
            let _ = memory.write(place, octet);
        }
    }
}

// Performs the operations in order, done or refused, and then reads a place: it answers what the last write there stored,
// or what stood there at first.
pub fn read_after<M: Memory>(
    memory: &mut M,
    operations: &[Operation],
    place: u32,
) -> Result<u8, MemoryFault>
    ensures value { result ≡ read_after (M.octets memory.old) operations.now place }
    ensures after { M.octets memory.new ≡ performed_all (M.octets memory.old) operations.now }
{
    for operation in operations {
        perform(memory, *operation);
    }
    memory.read(place)
}
