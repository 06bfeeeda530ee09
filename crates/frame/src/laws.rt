// The laws of whole frames: each function's contract is the theorem, for every type of fault.
// Each is answered in proofs/laws: the prover's search unfolds a law first, so that no lemma named beside the function fits it.
ghost use Rattle.frame.specs.Laws.{DatagramLeaves, DatagramIsFollowed, DataOctetAsks, PaddingLeaves, PassingLeaves, FrameLeaves, FrameEnds, CutFrameDoesNotEnd, FirstOctetsCount, FirstOctetsLeave, FrameIsKept, PassingIsKept, LongFrameIsDropped, CutFrameIsDropped};

pub fn of_datagrams<F>()
    ensures leaves { DatagramLeaves F }
    ensures followed { DatagramIsFollowed F }
    ensures asks { DataOctetAsks F }
{}

pub fn of_frames<F>()
    ensures padding { PaddingLeaves F }
    ensures passing { PassingLeaves F }
    ensures leaves { FrameLeaves F }
    ensures ends { FrameEnds F }
    ensures cut { CutFrameDoesNotEnd F }
{}

pub fn of_ends<F>()
    ensures counted { FirstOctetsCount F }
    ensures leaves { FirstOctetsLeave F }
    ensures kept { FrameIsKept F }
    ensures passed { PassingIsKept F }
    ensures long { LongFrameIsDropped F }
    ensures cut { CutFrameIsDropped F }
{}
