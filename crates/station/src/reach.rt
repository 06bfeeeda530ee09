// One access of the station: the questions before it, and then the read or the write.
// Fetches and stores stand apart: a store takes the octet and its share, and leaves the memory another.
ghost use Rattle.std.specs.Prelude.{◌≡◌, ◌-◌, Ok as Reached};
ghost use Rattle.memory.specs.Octets.{read_of, write_of};
ghost use Rattle.channel.specs.Services.{store_place, fetch_place};
ghost use Rattle.rules.specs.Steps.{over, service_at, asked_of, register_at, fetch_in, store_in, fetch_free, store_free, fetch_window, store_window, fetched, stored_by, reads, writes};
ghost use Rattle.station.specs.Replies.{reply};

use crate::calls::Station;
use bits::share::Share;
use channel::Service;
use core_steps::questions::{ask_area, ask_register, is_mappable, refused};
use core_steps::registers::{register_at, register_octet, service_at, set_service};
use memory::Memory;
use rules::data::{Access, Register, Target};
use rules::fault::{Fault, Reason};

impl<M: Memory> Station<M> {
    // All questions before an access, in their order; the memory is asked whether it has the place.
    fn asked(&mut self, access: Access) -> Result<Target, Fault>
        ensures value { result ≡ asked_of self.old.station access }
        ensures same { self.new.station ≡ self.old.station }
    {
        if !is_mappable(access) {
            return Err(refused(Reason::NotMappable, access.address));
        }
        if access.address < 0x1000 {
            return ask_register(&self.core.channels, access, register_at(access.address));
        }
        self.memory.read(access.address - 0x1000)?;
        ask_area(&self.core.channels, access)
    }

    fn register_octet(&self, register: Register) -> u8
        ensures { result ≡ register_at self.now.station register }
    {
        let units = (self.memory.size() / 1024) as u8;
        register_octet(units, &self.core, register)
    }

    fn fetch_free(&mut self, place: u32) -> Result<u8, Fault>
        ensures { reply self.new.station result ≡ fetch_free self.old.station (read_of self.old.station.octets place) }
    {
        Ok(self.memory.read(place)?)
    }

    // A part of an octet keeps its other bits.
    fn store_free(&mut self, share: Share, place: u32, octet: u8) -> Result<(), Fault>
        ensures { reply self.new.station result ≡ store_free self.old.station share place octet (read_of self.old.station.octets place) }
    {
        let old = self.memory.read(place)?;
        self.memory.write(place, share.stored(old, octet))?;
        Ok(())
    }

    // The channel picks the buffer.
    fn fetch_in(&mut self, channel: u8, service: Service, offset: u16) -> Result<u8, Fault>
        ensures { reply self.new.station result ≡ fetch_in self.old.station channel service offset (read_of self.old.station.octets (fetch_place service offset)) }
    {
        let octet = self.memory.read(service.fetch_place(offset))?;
        set_service(
            &mut self.core.channels,
            channel,
            service.after_fetch(offset),
        );
        Ok(octet)
    }

    fn store_in(
        &mut self,
        channel: u8,
        service: Service,
        offset: u16,
        octet: u8,
    ) -> Result<(), Fault>
        ensures { reply self.new.station result ≡ store_in self.old.station channel service offset octet (write_of self.old.station.octets (store_place service offset)) }
    {
        self.memory.write(service.store_place(offset), octet)?;
        set_service(
            &mut self.core.channels,
            channel,
            service.after_store(offset),
        );
        Ok(())
    }

    fn fetch_window(&mut self, access: Access, channel: u8, offset: u16) -> Result<u8, Fault>
        ensures { reply self.new.station result ≡ fetch_window self.old.station channel offset (access.address - 0x1000) (service_at self.old.station.core.channels channel) }
    {
        match service_at(&self.core.channels, channel) {
            None => self.fetch_free(access.address.saturating_sub(0x1000)),
            Some(service) => self.fetch_in(channel, service, offset),
        }
    }

    fn store_window(
        &mut self,
        access: Access,
        channel: u8,
        offset: u16,
        octet: u8,
    ) -> Result<(), Fault>
        ensures { reply self.new.station result ≡ store_window self.old.station access.share channel offset (access.address - 0x1000) octet (service_at self.old.station.core.channels channel) }
    {
        match service_at(&self.core.channels, channel) {
            None => {
                let place = access.address.saturating_sub(0x1000);
                self.store_free(access.share, place, octet)
            }
            Some(service) => self.store_in(channel, service, offset, octet),
        }
    }

    fn fetch_target(&mut self, access: Access, target: Target) -> Result<u8, Fault>
        ensures { reply self.new.station result ≡ fetched self.old.station access (Reached target) }
    {
        match target {
            Target::Register(register) => Ok(self.register_octet(register)),
            Target::Free { place } => self.fetch_free(place),
            Target::Window { channel, offset } => self.fetch_window(access, channel, offset),
        }
    }

    // A register octet that is written waits elsewhere.
    fn store_target(&mut self, access: Access, octet: u8, target: Target) -> Result<(), Fault>
        ensures { reply self.new.station result ≡ stored_by self.old.station access octet (Reached target) }
    {
        match target {
            Target::Register(_) => Ok(()),
            Target::Free { place } => self.store_free(access.share, place, octet),
            Target::Window { channel, offset } => {
                self.store_window(access, channel, offset, octet)
            }
        }
    }

    // A read.
    pub(crate) fn fetch(&mut self, access: Access) -> Result<u8, Fault>
        ensures { reply self.new.station result ≡ reads self.old.station access }
    {
        let target = self.asked(access)?;
        self.fetch_target(access, target)
    }

    // A write.
    pub(crate) fn store(&mut self, access: Access, octet: u8) -> Result<(), Fault>
        ensures { reply self.new.station result ≡ writes self.old.station access octet }
    {
        let reached = self.asked(access)?;
        self.store_target(access, octet, reached)
    }
}
