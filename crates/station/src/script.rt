// A script of calls, done one after the other from a new station on.
ghost use Rattle.std.specs.Prelude.{◌≡◌, length};
ghost use Rattle.rules.specs.declared.data.Call.TheVariants.{Octet as OctetCall, End as EndCall};
ghost use Rattle.rules.specs.Steps.{station as new_station, step, runs, history};
ghost use Rattle.rules.specs.Promise.{Promise};
ghost use Rattle.station.specs.Replies.{ended_as};
ghost use Rattle.station.specs.Scripts.{calls_of, told};

use crate::calls::Station;
use crate::token::{EndRefusal, Frame};
use frame::progress::Verdict;
use memory::Memory;
use rules::data::{Answer, Call};
use rules::fault::Fault;

// A call with its answer, once it is done.
#[derive(Clone, Copy)]
pub struct Entry {
    pub call: Call,
    pub answer: Answer,
}

fn end_told(answer: Result<Option<Fault>, EndRefusal>) -> Answer
    ensures { result ≡ ended_as answer }
{
    match answer {
        Ok(enabling) => Answer::Kept { enabling },
        Err(EndRefusal::Dropped(fault)) => Answer::Dropped(fault),
        Err(stray) => Answer::Refused(stray.fault()),
    }
}

impl<M: Memory> Station<M> {
    // An octet of a frame that carries this number.
    fn octet_of(&mut self, number: u16, octet: u8) -> Answer
        ensures { (self.new.station, result) ≡ step self.old.station (OctetCall number octet) }
    {
        let frame = Frame { number };
        let answer = self.octet(&frame, octet);
        let Frame { number: _ } = frame;
        answer.map_or_else(
            Answer::Refused,
            |given| Answer::Forwards {
                octet: given.forwarded,
                read: given.read,
                write: given.write,
            },
        )
    }

    // One call of a script.
    fn perform(&mut self, call: Call) -> Answer
        ensures { (self.new.station, result) ≡ step self.old.station call }
    {
        // A `match` and no closures: calls are data, with which a history is told.
        match call {
            Call::Begin => self
                .begin()
                .map_or_else(Answer::Refused, |Frame { number: _ }| Answer::Running),
            Call::Octet { frame, octet } => self.octet_of(frame, octet),
            Call::End { frame, verdict } => end_told(self.end(Frame { number: frame }, verdict)),
            Call::Read { address } => self.read(address).map_or_else(Answer::Refused, Answer::Got),
            Call::Write { address, octet } => self
                .write(address, octet)
                .map_or_else(Answer::Refused, |()| Answer::Stored),
        }
    }

    fn run(&mut self, script: &mut [Entry])
        ensures answers { told script.new ≡ history self.old.station (calls_of script.old) }
        ensures after { self.new.station ≡ runs self.old.station (calls_of script.old) }
    {
        for entry in script.iter_mut() {
            entry.answer = self.perform(entry.call);
        }
    }
}

// The promise is proved in a file, so it stands apart from `replay`, of which an edit is refused at its code.
fn replayed<M: Memory>(memory: M, number: u16, script: &mut [Entry]) -> M
    ensures answers { told script.new ≡ history (new_station (M.octets memory) number) (calls_of script.old) }
    ensures after { M.octets result ≡ (runs (new_station (M.octets memory) number) (calls_of script.old)).octets }
    ensures promise { Promise (length (M.octets memory)) number (told script.new) }
{
    let mut station = Station::new(memory, number);
    station.run(script);
    station.into_memory()
}

// Makes a new station, does every call of the script in order, with frames of the numbers given, and leaves each answer beside its call. The
// promise about messages holds of the calls and the answers that stand there then.
pub fn replay<M: Memory>(memory: M, number: u16, script: &mut [Entry]) -> M
    ensures answers { told script.new ≡ history (new_station (M.octets memory) number) (calls_of script.old) }
    ensures after { M.octets result ≡ (runs (new_station (M.octets memory) number) (calls_of script.old)).octets }
    ensures promise { Promise (length (M.octets memory)) number (told script.new) }
{
    replayed(memory, number, script)
}
