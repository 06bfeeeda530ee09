// The lowest entry that covers a place, for every kind of entry that tells its first and its last place.
// Sync manager channels are found by it at an address, FMMU entities at a logical bit.
#![tactic(auto)]

ghost use Rattle.std.specs.Prelude.{◌≡◌, ℕ};
ghost use Rattle.std.specs.List.{position_from};
ghost use Rattle.cover.specs.Lowest.{covers, Lowest};

// An entry covers the places from its first to its last, and none if the last stands before the first.
pub trait Span {
    ghost low: { Self → ℕ };

    ghost high: { Self → ℕ };

    fn first(&self) -> u64
        ensures { result ≡ low self.now };

    fn last(&self) -> u64
        ensures { result ≡ high self.now };
}

fn reaches<E: Span>(entry: &E, place: u64) -> bool
    ensures { result ≡ covers E.low E.high place entry.now }
{
    entry.first() <= place && place <= entry.last()
}

// The index of the lowest entry that covers the place, if any does.
pub fn lowest_covering<E: Span>(entries: &[E], place: u64) -> Option<usize>
    ensures value { result ≡ position_from (covers E.low E.high place) 0 entries.now }
    ensures lowest { Lowest E.low E.high place entries.now result }
{
    // A loop with the index, and no `position`: the form is a wanted one (docs/DECISIONS.md).
    for (i, entry) in entries.iter().enumerate() {
        if reaches(entry, place) {
            return Some(i);
        }
    }
    None
}
