// The station: its five calls over any memory. Each steps as the rules say and carries the promise about messages: whatever list of calls led
// from a new station to this one, after the call the station is that run plus one call, and the promise holds of the longer history, with this
// call's answer. The clause `frame` of three calls speaks of two moments, before and after, and so stands in no type.
ghost use Rattle.std.specs.Prelude.{◌≡◌, length};
ghost use Rattle.rules.specs.declared.data.Call.TheVariants.{Begin as BeginCall, Octet as OctetCall, End as EndCall, Read as ReadCall, Write as WriteCall};
ghost use Rattle.rules.specs.Steps.{station as new_station, step};
ghost use Rattle.rules.specs.After.{Promised};
ghost use Rattle.station.specs.Replies.{begun_as, octet_as, ended_as, read_as, written_as, SameFrame, Minted, Begun, HandedBack};

use crate::token::{EndRefusal, Frame, OctetAnswer};
use channel::Channel;
use core_steps::registers::no_registers;
use frame::progress::Verdict;
use memory::Memory;
use rules::data::Core;
use rules::fault::Fault;
use std::marker::Model;

// A contract sees a station as its core beside the list of its memory's octets.
#[derive(Drop)]
pub struct Station<M: Memory> {
    pub(crate) core: Core,
    pub(crate) memory: M,
}

impl<M: Memory> Model for Station<M> {
    ghost use Rattle.rules.specs.Steps.{over};
    ghost use Rattle.station.specs.Seen.{Seen};

    ghost Value = { Seen M };

    ghost view = { λ s. record { station = over s.core (M.octets s.memory); memory = s.memory } };
}

impl<M: Memory> Station<M> {
    // All registers 0, no service, no frame; the memory's octets as they are. Address 0x1000 is place 0 of the memory.
    pub fn new(memory: M, number: u16) -> Station<M>
        ensures { result.station ≡ new_station (M.octets memory) number }
    {
        Station {
            core: Core {
                number,
                registers: no_registers(),
                alias: 0,
                channels: [Channel::default(); 8],
                running: None,
            },
            memory,
        }
    }

    // How many octets the memory has: those that a contract calls the station's.
    pub fn size(&self) -> usize
        ensures size { result ≡ length self.now.station.octets }
        ensures memory { M.octets self.now.memory ≡ self.now.station.octets }
    {
        self.memory.size()
    }

    pub fn into_memory(self) -> M
        ensures octets { M.octets result ≡ self.station.octets }
        ensures memory { result ≡ self.memory }
    {
        let Station { core: _, memory } = self;
        memory
    }

    // A frame begins, unless one runs.
    #[tactic(auto, using(rules::proofs::After::promised))]
    pub fn begin(&mut self) -> Result<Frame, Fault>
        ensures after { self.new.station ≡ (step self.old.station BeginCall).0 }
        ensures answer { begun_as result ≡ (step self.old.station BeginCall).1 }
        ensures minted { Minted self.old.station.core.number result }
        ensures runs { Begun self.new.station.core result }
        ensures promise { Promised self.old.station BeginCall self.new.station (begun_as result) }
    {
        self.begin_frame()
    }

    // The next octet of a frame.
    #[tactic(auto, using(rules::proofs::After::promised, crate::proofs::Frames::octet_same))]
    pub fn octet(&mut self, frame: &Frame, octet: u8) -> Result<OctetAnswer, Fault>
        ensures after { self.new.station ≡ (step self.old.station (OctetCall frame.now.number octet)).0 }
        ensures answer { octet_as result ≡ (step self.old.station (OctetCall frame.now.number octet)).1 }
        ensures frame { SameFrame self.old.station self.new.station }
        ensures promise { Promised self.old.station (OctetCall frame.now.number octet) self.new.station (octet_as result) }
    {
        self.octet_of_frame(frame, octet)
    }

    // A frame ends: kept, with the lowest refused enabling if any, or dropped; one that is not this station's running frame is handed back.
    #[tactic(auto, using(rules::proofs::After::promised, crate::proofs::Frames::handed_back))]
    pub fn end(&mut self, frame: Frame, verdict: Verdict) -> Result<Option<Fault>, EndRefusal>
        ensures after { self.new.station ≡ (step self.old.station (EndCall frame.number verdict)).0 }
        ensures answer { ended_as result ≡ (step self.old.station (EndCall frame.number verdict)).1 }
        ensures back { HandedBack self.old.station.core frame result }
        ensures promise { Promised self.old.station (EndCall frame.number verdict) self.new.station (ended_as result) }
    {
        self.end_frame(frame, verdict)
    }

    // The local side reads an octet.
    #[tactic(auto, using(rules::proofs::After::promised, crate::proofs::Frames::read_same))]
    pub fn read(&mut self, address: u32) -> Result<u8, Fault>
        ensures after { self.new.station ≡ (step self.old.station (ReadCall address)).0 }
        ensures answer { read_as result ≡ (step self.old.station (ReadCall address)).1 }
        ensures frame { SameFrame self.old.station self.new.station }
        ensures promise { Promised self.old.station (ReadCall address) self.new.station (read_as result) }
    {
        self.read_local(address)
    }

    // The local side writes an octet.
    #[tactic(auto, using(rules::proofs::After::promised, crate::proofs::Frames::write_same))]
    pub fn write(&mut self, address: u32, octet: u8) -> Result<(), Fault>
        ensures after { self.new.station ≡ (step self.old.station (WriteCall address octet)).0 }
        ensures answer { written_as result ≡ (step self.old.station (WriteCall address octet)).1 }
        ensures frame { SameFrame self.old.station self.new.station }
        ensures promise { Promised self.old.station (WriteCall address octet) self.new.station (written_as result) }
    {
        self.write_local(address, octet)
    }
}
