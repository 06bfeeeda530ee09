// Whole slices, to measure: over a memory that does every access and holds one octet everywhere.
ghost use Rattle.std.specs.Prelude.{◌≡◌, fold};
ghost use Rattle.frame.specs.Frames.{begun_frame};
ghost use Rattle.frame.specs.Runs.{emitted};
ghost use Rattle.frame.specs.Feeding.{done_if, served, fed_next, fed_octet};

use crate::command::Addresses;
use crate::datagram::Wanted;
use crate::outcome::{Accessed, Outcome};
use crate::progress::Progress;

fn done_if<T: Drop>(wanted: bool, value: T) -> Outcome<T, ()>
    ensures { result ≡ done_if wanted value }
{
    if wanted {
        Outcome::Done(value)
    } else {
        Outcome::NotWanted
    }
}

fn serve(wanted: Option<Wanted>, octet: u8, holds: u8) -> Accessed<()>
    ensures { result ≡ served holds octet wanted }
{
    // A `match`: `map_or` would spell out both answers too.
    match wanted {
        Some(w) => Accessed::whole(octet, done_if(w.read, holds), done_if(w.write, ())),
        None => Accessed::whole(octet, Outcome::NotWanted, Outcome::NotWanted),
    }
}

fn feed_octet(progress: &mut Progress, octet: u8, addresses: Addresses, holds: u8) -> u8
    ensures next { progress.new ≡ fed_next addresses holds progress.old octet }
    ensures leaves { result ≡ fed_octet holds progress.old octet }
{
    let accessed = serve(progress.wanted(), octet, holds);
    progress.octet(octet, addresses, &accessed).unwrap_or(octet)
}

// Feeds the octets one by one, and leaves in their place what is forwarded.
fn feed(progress: &mut Progress, octets: &mut [u8], addresses: Addresses, holds: u8)
    ensures after { progress.new ≡ fold (fed_next addresses holds) progress.old octets.old }
    ensures leaves { octets.new ≡ emitted (fed_next addresses holds) (fed_octet holds) progress.old octets.old }
{
    for octet in octets.iter_mut() {
        *octet = feed_octet(progress, *octet, addresses, holds);
    }
}

// One frame in place, from its beginning.
#[unsafe(no_mangle)]
pub extern "C" fn frame_feed(octets: &mut [u8], station: u16, alias: u16, holds: u8)
    ensures { octets.new ≡ emitted (fed_next (record { station = station; alias = alias }) holds) (fed_octet holds) begun_frame octets.old }
{
    let mut progress = Progress::begin();
    feed(&mut progress, octets, Addresses { station, alias }, holds);
}
