// Numbers and octets as a script spells them.
ghost use Rattle.std.specs.Prelude.{◌≡◌};
ghost use Rattle.scripts.specs.Numerals.{radix_of, digit_of, value_from, numeral_of, number_of, below, octet_of};

// The base of a numeral.
#[derive(Clone, Copy)]
enum Base {
    Decimal = 10,
    Hexadecimal = 16,
}

impl Base {
    fn radix(self) -> u32
        ensures { result ≡ radix_of self }
    {
        self as u32
    }

    fn digit(self, octet: u8) -> Option<u32>
        ensures { result ≡ digit_of (radix_of self) octet }
    {
        char::from(octet).to_digit(self.radix())
    }
}

// The value of digits; what is beyond 32 bits counts as their largest.
fn value(digits: &[u8], base: Base) -> Option<u32>
    ensures { result ≡ value_from (radix_of base) 0 digits.now }
{
    let mut value = 0u32;
    for octet in digits {
        let digit = base.digit(*octet)?;
        value = value.saturating_mul(base.radix()).saturating_add(digit);
    }
    Some(value)
}

// At least one digit, and nothing else.
fn numeral(digits: &[u8], base: Base) -> Option<u32>
    ensures { result ≡ numeral_of (radix_of base) digits.now }
{
    if digits.is_empty() {
        None
    } else {
        value(digits, base)
    }
}

// A number: decimal, or hexadecimal after 0x.
pub fn number(word: &str) -> Option<u32>
    ensures { result ≡ number_of word.now }
{
    match word.as_bytes() {
        [b'0', b'x', digits @ ..] => numeral(digits, Base::Hexadecimal),
        digits => numeral(digits, Base::Decimal),
    }
}

// A number of 16 bits: a station's, a frame's or an address.
pub fn short(word: &str) -> Option<u16>
    ensures { result ≡ below 65536 (number_of word.now) }
{
    u16::try_from(number(word)?).ok()
}

// An octet: two hexadecimal digits.
pub fn octet(word: &str) -> Option<u8>
    ensures { result ≡ octet_of word.now }
{
    if word.len() != 2 {
        return None;
    }
    u8::try_from(numeral(word.as_bytes(), Base::Hexadecimal)?).ok()
}
