// What came of the accesses that a data octet asked for, and what they are worth to the working counter.
ghost use Rattle.std.specs.Prelude.{◌≡◌};
ghost use Rattle.frame.specs.Outcomes.{met, worth, replaced};

// An enum of its own: the form asked for of an octet's answer (docs/DECISIONS.md). `F` is the caller's fault, whole.
#[derive(Clone, Copy, PartialEq, Eq, Debug)]
pub enum Outcome<T, F> {
    NotWanted,
    Done(T),
    Refused(F),
}

// What a datagram's accesses in one direction came to so far. Three names: an `Option<bool>` would not say what false means.
#[derive(Clone, Copy)]
pub enum Tally {
    Nothing,
    Success,
    Failure,
}

// Both outcomes of a data octet, and the octet itself with the fetched bits in the place of its own.
#[derive(Clone, Copy)]
pub struct Accessed<F> {
    pub read: Outcome<u8, F>,
    pub write: Outcome<(), F>,
    pub laid: u8,
}

impl Tally {
    // Success stands for at least one access done and none refused.
    pub(crate) fn meets<T, F>(self, outcome: &Outcome<T, F>) -> Tally
        ensures { result ≡ met self outcome.now }
    {
        match (self, outcome) {
            (_, Outcome::NotWanted) => self,
            (_, Outcome::Refused(_)) => Tally::Failure,
            (Tally::Failure, Outcome::Done(_)) => Tally::Failure,
            (_, Outcome::Done(_)) => Tally::Success,
        }
    }

    pub(crate) fn worth(self, success: u8) -> u8
        ensures { result ≡ worth self success }
    {
        match self {
            Tally::Success => success,
            _ => 0,
        }
    }
}

impl<F> Accessed<F> {
    // For an octet that is accessed whole, or not at all: one fetched takes the place of the one that came.
    pub fn whole(octet: u8, read: Outcome<u8, F>, write: Outcome<(), F>) -> Accessed<F>
        ensures { result ≡ replaced octet read write }
    {
        let laid = match &read {
            Outcome::Done(fetched) => *fetched,
            _ => octet,
        };
        Accessed { read, write, laid }
    }
}
