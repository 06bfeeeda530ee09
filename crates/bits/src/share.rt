// The part that an access has in a physical octet, and the bits that it moves between that octet and a logical one.
ghost use Rattle.std.specs.Prelude.{◌≡◌};
ghost use Rattle.bits.specs.declared.share.Share.TheVariants.{Part};
ghost use Rattle.bits.specs.Shares.{share_of, laid, stored, AllBitsComeBack};

// All eight bits in their places; or the logical bits of a mask, of which bit i is bit (i + turn) % 8 of the physical octet.
// `Whole` is a share as any other, and not the lack of one.
#[derive(Clone, Copy, PartialEq, Eq, Debug, Default)]
pub enum Share {
    #[default]
    Whole,
    Part { bits: u8, turn: u8 },
}

impl Share {
    // The share of the logical bits of a mask.
    pub fn of(bits: u8, turn: u8) -> Share
        ensures { result ≡ share_of bits turn }
    {
        if bits == 0xff {
            Share::Whole
        } else {
            Share::Part { bits, turn }
        }
    }

    // Gathers: the logical octet with the share's bits as the fetched physical octet has them.
    pub fn laid(self, octet: u8, fetched: u8) -> u8
        ensures { result ≡ laid self octet fetched }
    {
        match self {
            Share::Whole => fetched,
            Share::Part { bits, turn } => part_laid(bits, turn, octet, fetched),
        }
    }

    // Scatters: the physical octet with the share's bits as the logical octet has them.
    pub fn stored(self, old: u8, octet: u8) -> u8
        ensures { result ≡ stored self old octet }
    {
        match self {
            Share::Whole => octet,
            Share::Part { bits, turn } => part_stored(bits, turn, old, octet),
        }
    }
}

#[tactic(auto, using(crate::proofs::Turns::laid_is))]
// Apart from `laid`, and `part_stored` from `stored`, so that a wrong operand there is refused at the call.
fn part_laid(bits: u8, turn: u8, octet: u8, fetched: u8) -> u8
    ensures { result ≡ laid (Part bits turn) octet fetched }
{
    (octet & !bits) | (fetched.rotate_right(u32::from(turn)) & bits)
}

#[tactic(auto, using(crate::proofs::Turns::stored_is))]
fn part_stored(bits: u8, turn: u8, old: u8, octet: u8) -> u8
    ensures { result ≡ stored (Part bits turn) old octet }
{
    let places = bits.rotate_left(u32::from(turn));
    (old & !places) | (octet.rotate_left(u32::from(turn)) & places)
}

// Bits stored and fetched again come back, and no other bit moves.
#[tactic(auto, using(crate::proofs::Turns::bits_come_back))]
pub fn bits_come_back()
    ensures { AllBitsComeBack }
{}
