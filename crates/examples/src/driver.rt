// A driver around a station, as a device maker writes one: frames come in octet by octet, and go out in their place.
ghost use Rattle.std.specs.Prelude.{◌≡◌};
ghost use Rattle.station.specs.Replies.{frame_in, SameFrame};
ghost use Rattle.examples.specs.Driving.{given_all, out_all, transmitted, transmitted_answer, transmitted_as, transmitted_out};

use frame::progress::Verdict;
use memory::Memory;
use rules::fault::Fault;
use station::{EndRefusal, Frame, Station};

// Gives the station the octets of a frame one by one, and leaves in their place those that go out: a refused one goes out as it came.
fn pass<M: Memory>(station: &mut Station<M>, frame: &Frame, octets: &mut [u8])
    ensures after { station.new.station ≡ given_all frame.now.number station.old.station octets.old }
    ensures leaves { octets.new ≡ out_all frame.now.number station.old.station octets.old }
    ensures frame { SameFrame station.old.station station.new.station }
{
    for octet in octets.iter_mut() {
        *octet = station
            .octet(frame, *octet)
            .map_or(*octet, |answer| answer.forwarded);
    }
}

// One frame from its beginning to its end, with the verdict of the frame check: kept, with the lowest enabling that was refused, or dropped.
// The frame that is begun here is the one that runs, so its end does not hand it back.
pub fn transmit<M: Memory>(
    station: &mut Station<M>,
    octets: &mut [u8],
    verdict: Verdict,
) -> Result<Option<Fault>, Fault>
    ensures after { station.new.station ≡ transmitted station.old.station octets.old verdict (frame_in station.old.station.core) }
    ensures answer { transmitted_as (frame_in station.old.station.core) result ≡ transmitted_answer station.old.station octets.old verdict (frame_in station.old.station.core) }
    ensures leaves { octets.new ≡ transmitted_out station.old.station octets.old (frame_in station.old.station.core) }
{
    let frame = station.begin()?;
    pass(station, &frame, octets);
    match station.end(frame, verdict) {
        Ok(enabling) => Ok(enabling),
        Err(EndRefusal::Dropped(fault)) => Err(fault),
        Err(EndRefusal::NotThisFrame(_frame)) => unreachable!(),
    }
}
