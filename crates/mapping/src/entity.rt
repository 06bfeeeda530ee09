// An FMMU entity, typed, and its sixteen register octets.
ghost use Rattle.std.specs.Prelude.{◌≡◌};
ghost use Rattle.mapping.specs.Registers.{no_entity, entity_octet, with_entity_octet, EntitiesReadBack};

use access::field::Field;

// Logical bits that stand for physical ones: from the start bit of the logical start on, over `length` logical octets, to the stop bit of the
// last; they land from the physical bit of the physical start on. It serves mapped reads, mapped writes or both, while it is active.
// Of the three bit numbers only the low three bits count.
#[derive(Clone, Copy, PartialEq, Eq, Debug, Default)]
pub struct Entity {
    pub logical: u32,
    pub length: u16,
    pub start_bit: u8,
    pub stop_bit: u8,
    pub physical: u16,
    pub physical_bit: u8,
    pub reads: bool,
    pub writes: bool,
    pub active: bool,
}

impl Entity {
    // An entity as it starts: all octets 0.
    pub fn new() -> Entity
        ensures { result ≡ no_entity }
    {
        Entity::default()
    }

    // Register octet `index`: 0 to 3 logical start, 4 and 5 length, 6 start bit, 7 stop bit, 8 and 9 physical start, 10 physical bit,
    // 11 type, 12 active. The others are 0.
    pub fn octet(&self, index: u8) -> u8
        ensures { result ≡ entity_octet self.now index }
    {
        match index {
            0..=3 => self.logical.octet(index),
            4..=5 => self.length.octet(index - 4),
            6 => self.start_bit % 8,
            7 => self.stop_bit % 8,
            8..=9 => self.physical.octet(index - 8),
            10 => self.physical_bit % 8,
            11 => u8::from(self.reads) + 2 * u8::from(self.writes),
            12 => u8::from(self.active),
            _ => 0,
        }
    }

    // The entity with one register octet written; of the octet the named bits are kept.
    pub fn with_octet(self, index: u8, octet: u8) -> Entity
        ensures { result ≡ with_entity_octet self index octet }
    {
        let mut entity = self;
        match index {
            0..=3 => entity.logical = self.logical.with_octet(index, octet),
            4..=5 => entity.length = self.length.with_octet(index - 4, octet),
            6 => entity.start_bit = octet % 8,
            7 => entity.stop_bit = octet % 8,
            8..=9 => entity.physical = self.physical.with_octet(index - 8, octet),
            10 => entity.physical_bit = octet % 8,
            11 => {
                entity.reads = octet % 2 == 1;
                entity.writes = octet / 2 % 2 == 1;
            }
            12 => entity.active = octet % 2 == 1,
            _ => {}
        }
        entity
    }
}

// What is written to a register octet is read back from it, masked to the bits that are kept, and every other octet stays.
pub fn entities_read_back()
    ensures { EntitiesReadBack }
{}
