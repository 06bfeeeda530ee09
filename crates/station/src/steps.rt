// What each of the five calls does, equal to the rules.
ghost use Rattle.std.specs.Prelude.{◌≡◌, map, length, Some as Runs, None as NoFrame};
ghost use Rattle.frame.specs.Frames.{kept, answered};
ghost use Rattle.core_steps.specs.Accessing.{accesses_in, stepped_running};
ghost use Rattle.access.specs.declared.Direction.TheVariants.{Write as Writing};
ghost use Rattle.rules.specs.declared.data.Call.TheVariants.{Begin as BeginCall, Octet as OctetCall, End as EndCall, Read as ReadCall, Write as WriteCall};
ghost use Rattle.rules.specs.declared.data.Answer.TheVariants.{Kept as Keeps};
ghost use Rattle.rules.specs.Steps.{over, with_running, with_channels, dropped_channel, octet_answer, octet_given, kept_channels, kept_station, end_of, step};
ghost use Rattle.station.specs.Replies.{begun_as, octet_as, ended_as, kept_as, read_as, written_as, Minted, Begun, Same};

use crate::calls::Station;
use crate::octets::plain;
use crate::token::{EndRefusal, Frame, OctetAnswer};
use access::{Direction, Side};
use core_steps::enabling::{Enabling, dropped_channels, kept_channels};
use core_steps::octets::{OctetAccesses, accesses_for, begun_running, give, mine};
use core_steps::questions::refused;
use core_steps::registers::{register_at, with_alias};
use frame::command::Addresses;
use frame::outcome::Accessed;
use frame::progress::Verdict;
use memory::Memory;
use rules::data::{Core, Registers, Running};
use rules::fault::{Fault, Reason};

fn octet_answer(
    leaves: Result<u8, frame::progress::Reason>,
    accessed: Accessed<Fault>,
) -> Result<OctetAnswer, Fault>
    ensures { octet_as result ≡ octet_answer accessed.read accessed.write leaves }
{
    let forwarded = leaves.map_err(|reason| refused(Reason::Frame(reason), 0))?;
    Ok(OctetAnswer {
        forwarded,
        read: accessed.read,
        write: accessed.write,
    })
}

impl<M: Memory> Station<M> {
    // A frame begins, unless one runs.
    pub(crate) fn begin_frame(&mut self) -> Result<Frame, Fault>
        ensures step { (self.new.station, begun_as result) ≡ step self.old.station BeginCall }
        ensures minted { Minted self.old.station.core.number result }
        ensures runs { Begun self.new.station.core result }
    {
        if self.core.running.is_some() {
            return Err(refused(Reason::FrameRuns, 0));
        }
        self.core.running = Some(begun_running(&self.core.registers));
        Ok(Frame {
            number: self.core.number,
        })
    }

    // The local side reads an octet.
    pub(crate) fn read_local(&mut self, address: u32) -> Result<u8, Fault>
        ensures { (self.new.station, read_as result) ≡ step self.old.station (ReadCall address) }
    {
        self.fetch(plain(Side::Local, Direction::Read, address))
    }

    // The local side writes an octet; into the alias it holds at once.
    pub(crate) fn write_local(&mut self, address: u32, octet: u8) -> Result<(), Fault>
        ensures { (self.new.station, written_as result) ≡ step self.old.station (WriteCall address octet) }
    {
        self.store(plain(Side::Local, Direction::Write, address), octet)?;
        self.core.alias = with_alias(self.core.alias, register_at(address), octet);
        Ok(())
    }

    // Read, then write, then the frame moves on.
    fn octet_given(&mut self, running: Running, octet: u8) -> Result<OctetAnswer, Fault>
        ensures { (self.new.station, octet_as result) ≡ octet_given self.old.station running octet }
    {
        let wanted = running.progress.wanted();
        let addresses = Addresses {
            station: self.core.registers.address,
            alias: self.core.alias,
        };
        let reads = accesses_for(&self.core.registers.entities, Direction::Read, wanted);
        let writes = accesses_for(&self.core.registers.entities, Direction::Write, wanted);
        let read = self.read_all(&reads, octet);
        let write = self.write_all(&writes, octet);
        let accessed = Accessed {
            read: read.outcome,
            write,
            laid: read.shown,
        };
        let mut next = running;
        let leaves = give(&mut next, octet, addresses, &writes, &accessed);
        self.core.running = Some(next);
        octet_answer(leaves, accessed)
    }

    // The next octet of a frame.
    pub(crate) fn octet_of_frame(&mut self, frame: &Frame, octet: u8) -> Result<OctetAnswer, Fault>
        ensures { (self.new.station, octet_as result) ≡ step self.old.station (OctetCall frame.now.number octet) }
    {
        let running = mine(&self.core, frame.number).ok_or(refused(Reason::NoSuchFrame, 0))?;
        self.octet_given(running, octet)
    }

    // What the frame accessed is cancelled.
    fn cancel(&mut self)
        ensures { self.new.station ≡ over (with_running (with_channels self.old.station.core (map dropped_channel self.old.station.core.channels)) NoFrame) self.old.station.octets }
    {
        self.core.channels = dropped_channels(&self.core.channels);
        self.core.running = None;
    }

    // In order: waiting transactions complete, waiting registers are set, services end, enablings are judged. The lowest refused enabling.
    fn keep(&mut self, registers: Registers) -> Option<Fault>
        ensures { (self.new.station, Keeps result) ≡ kept_station self.old.station registers (kept_channels (length self.old.station.octets) registers self.old.station.core.channels) }
    {
        let Enabling {
            channels,
            settings,
            denied,
        } = kept_channels(self.memory.size(), &registers, &self.core.channels);
        self.core = Core {
            registers: Registers {
                settings,
                ..registers
            },
            channels,
            running: None,
            ..self.core
        };
        denied
    }

    fn end_of(&mut self, running: Running, verdict: Verdict) -> Result<Option<Fault>, Fault>
        ensures { (self.new.station, kept_as result) ≡ end_of self.old.station running (kept running.progress verdict) }
    {
        match running.progress.end(verdict) {
            Ok(()) => Ok(self.keep(running.waiting)),
            Err(reason) => {
                self.cancel();
                Err(refused(Reason::Frame(reason), 0))
            }
        }
    }

    // A frame ends: kept, with the lowest refused enabling if any, or dropped; one that is not this station's running frame is handed back.
    pub(crate) fn end_frame(
        &mut self,
        frame: Frame,
        verdict: Verdict,
    ) -> Result<Option<Fault>, EndRefusal>
        ensures step { (self.new.station, ended_as result) ≡ step self.old.station (EndCall frame.number verdict) }
        ensures back { Same frame result }
    {
        let Some(running) = mine(&self.core, frame.number) else {
            return Err(EndRefusal::NotThisFrame(frame));
        };
        let Frame { number: _ } = frame;
        self.end_of(running, verdict).map_err(EndRefusal::Dropped)
    }
}
