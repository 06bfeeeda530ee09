// The promise about messages in its earlier, shorter words, which said less of refusals and of mailboxes: each follows from today's.
#![tactic(auto)]

ghost use Rattle.earlier_promise.specs.Channel.{ChannelPromised};
ghost use Rattle.earlier_promise.specs.Search.{SearchesAgree};
ghost use Rattle.earlier_promise.specs.Shown.{OctetsAgree};
ghost use Rattle.earlier_promise.specs.Station.{StationPromised};
ghost use Rattle.earlier_promise.specs.Calls.{CallsPromised};

// What each law said is still so, and the definitions that were taken from the library or from one another mean what they meant.
pub fn still_promised()
    ensures channel { ChannelPromised }
    ensures station { StationPromised }
    ensures calls { CallsPromised }
    ensures octets { OctetsAgree }
{}

// Whatever the entries are, the search that was written out finds what the library's finds.
#[tactic(auto, using(crate::proofs::Small::searches))]
pub fn searches_agree<E>()
    ensures { SearchesAgree E }
{}
