// Register fields of several octets, read and written octet by octet, the low octet first.
ghost use Rattle.std.specs.Prelude.{◌≡◌, ℕ, slice_index};
ghost use Rattle.access.specs.Fields.{octet_at, with_octet, FieldsReadBack};

use crate::list::replaced;

// A number that a register holds in some octets.
pub trait Field {
    // How many octets it has, and its value.
    ghost width: { ℕ };

    ghost value: { Self → ℕ };

    // An octet of the field; 0 past its last octet.
    fn octet(self, index: u8) -> u8
        ensures { result ≡ octet_at width (value self) index };

    // The field with one octet replaced; unchanged past its last octet.
    fn with_octet(self, index: u8, octet: u8) -> Self
        ensures { value result ≡ with_octet width (value self) index octet };
}

impl Field for u16 {
    ghost width = { 2 };

    ghost value = { λ n. n };

    fn octet(self, index: u8) -> u8 {
        octet_of::<2>(self.to_le_bytes(), index)
    }

    fn with_octet(self, index: u8, octet: u8) -> u16 {
        u16::from_le_bytes(replaced(self.to_le_bytes(), index, octet))
    }
}

impl Field for u32 {
    ghost width = { 4 };

    ghost value = { λ n. n };

    fn octet(self, index: u8) -> u8 {
        octet_of::<4>(self.to_le_bytes(), index)
    }

    fn with_octet(self, index: u8, octet: u8) -> u32 {
        u32::from_le_bytes(replaced(self.to_le_bytes(), index, octet))
    }
}

// An octet of a field's octets; 0 past the last.
fn octet_of<const N: usize>(octets: [u8; N], index: u8) -> u8
    ensures { result ≡ slice_index octets.entry index }
{
    octets.get(index as usize).copied().unwrap_or(0)
}

// What is written to an octet of a field is read back from it, and every other octet stays: for fields of any width.
pub fn fields_read_back()
    ensures { FieldsReadBack }
{}
