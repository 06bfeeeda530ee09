// Sync manager channels: enablings and questions at their borders, register octets, and the status octet along two runs.
#[cfg(test)]
mod tests {
    use access::{Direction, Side};
    use channel::{Channel, Denial, Facts, Kind, Refusal, Service, Setting, Window};
    use cover::lowest_covering;
    use memory::Memory;
    use memory::row::Row;
    use std::process::Abort;
    use std::test::Fail;

    const START: u32 = 0x1000;

    const OFF: Channel = Channel { service: None };

    fn setting(start: u16, length: u16, control: u8) -> Setting {
        Setting {
            start,
            length,
            control,
            enable: true,
        }
    }

    // The status octet.
    fn shown(service: Service) -> u8 {
        Channel {
            service: Some(service),
        }
        .status()
    }

    fn store<M: Memory>(
        service: Service,
        memory: &mut M,
        side: Side,
        offset: u8,
        octet: u8,
    ) -> Result<Service, Fail> {
        let offset = service
            .facts()
            .ask(side, Direction::Write, START + u32::from(offset))?;
        memory.write(service.store_place(offset), octet)?;
        Ok(service.after_store(offset))
    }

    // The octet fetched has to be `octet`.
    fn fetch<M: Memory>(
        rt: &impl Abort,
        service: Service,
        memory: &mut M,
        side: Side,
        offset: u8,
        octet: u8,
    ) -> Result<Service, Fail> {
        let offset = service
            .facts()
            .ask(side, Direction::Read, START + u32::from(offset))?;
        assert_eq!(rt; memory.read(service.fetch_place(offset))?, octet);
        Ok(service.after_fetch(offset))
    }

    fn store_two<M: Memory>(
        service: Service,
        memory: &mut M,
        side: Side,
        octet: u8,
    ) -> Result<Service, Fail> {
        let service = store(service, memory, side, 0, octet)?;
        store(service, memory, side, 1, octet.wrapping_add(1))
    }

    // Buffered, L 2, the local side stores: two writings, a reading opens, a third writing, and the reading still shows the second.
    #[test]
    fn buffered_status(rt: HostRuntime) -> Result<(), Fail> {
        let mut cells = [0u8; 16];
        let mut memory = Row::new(&mut cells);
        let service = Service::begun(setting(0x1000, 2, 0).judged(16, &[OFF])?);
        assert_eq!(rt; shown(service), 0x30);
        let service = store_two(service, &mut memory, Side::Local, 0x10)?;
        assert_eq!(rt; shown(service), 0x01);
        let service = store_two(service, &mut memory, Side::Local, 0x20)?;
        assert_eq!(rt; shown(service), 0x11);
        let service = fetch(&rt, service, &mut memory, Side::Master, 0, 0x20)?;
        assert_eq!(rt; shown(service), 0x10);
        let service = store_two(service, &mut memory, Side::Local, 0x30)?;
        assert_eq!(rt; shown(service), 0x01);
        let service = fetch(&rt, service, &mut memory, Side::Master, 1, 0x21)?.after_kept();
        fetch(&rt, service, &mut memory, Side::Master, 0, 0x30)?;
        Ok(())
    }

    // A mailbox that the local side stores into: written, read by a frame that is kept, or dropped.
    #[test]
    fn mailbox_status(rt: HostRuntime) -> Result<(), Fail> {
        let mut cells = [0u8; 16];
        let mut memory = Row::new(&mut cells);
        let service = Service::begun(setting(0x1000, 2, 2).judged(16, &[OFF])?);
        assert_eq!(rt; shown(service), 0x00);
        let service = store_two(service, &mut memory, Side::Local, 0x10)?;
        assert_eq!(rt; shown(service), 0x09);
        let service = fetch(&rt, service, &mut memory, Side::Master, 0, 0x10)?;
        assert_eq!(rt; shown(service), 0x08);
        assert_eq!(rt; shown(service.after_dropped()), 0x08);
        let service = fetch(&rt, service, &mut memory, Side::Master, 1, 0x11)?;
        assert_eq!(rt; shown(service), 0x08);
        assert_eq!(rt; shown(service.after_dropped()), 0x08);
        assert_eq!(rt; shown(service.after_kept()), 0x02);
        Ok(())
    }

    #[test]
    fn enablings(rt: HostRuntime) -> Result<(), Fail> {
        let buffered = Channel {
            service: Some(Service::begun(setting(0x1000, 4, 0).judged(1024, &[])?)),
        };
        let table = [
            (setting(0x1100, 2, 0), None),
            (setting(0x1100, 1, 0), Some(20)),
            (setting(0x1100, 2, 0x76), None),
            (setting(0x1100, 2, 1), Some(19)),
            (setting(0x1100, 2, 3), Some(19)),
            (setting(0x1100, 1, 8), Some(19)),
            (setting(0x13f4, 4, 0), None),
            (setting(0x13f5, 4, 0), Some(21)),
            (setting(0x13fc, 4, 2), None),
            (setting(0x13fd, 4, 2), Some(21)),
            (setting(0x0fff, 2, 2), Some(21)),
            (setting(0xffff, 0xffff, 0), Some(21)),
            (setting(0x100c, 4, 0), None),
            (setting(0x100b, 4, 0), Some(22)),
            (setting(0x1000, 2, 2), Some(22)),
        ];
        // an enabling, and the number of its refusal
        for (asked, number) in table {
            let judged = asked.judged(1024, &[OFF, buffered]);
            assert_eq!(rt; judged.err().map(Denial::number), number);
        }
        Ok(())
    }

    #[test]
    fn questions(rt: HostRuntime) {
        let buffered = Window {
            start: 0x1000,
            length: 4,
            kind: Kind::Buffered,
            stores: Side::Master,
        };
        let mailbox = Window {
            kind: Kind::Mailbox,
            ..buffered
        };
        let new = Facts {
            window: buffered,
            stored: 0,
            fetched: 0,
            closed: false,
            message: false,
        };
        let full = Facts {
            window: mailbox,
            message: true,
            ..new
        };
        let two = Facts {
            stored: 2,
            message: true,
            ..new
        };
        let table = [
            (new, Side::Master, Direction::Write, 0u8, None),
            (new, Side::Master, Direction::Write, 1, Some(8)),
            (new, Side::Master, Direction::Write, 4, Some(5)),
            (new, Side::Master, Direction::Write, 11, Some(5)),
            (new, Side::Local, Direction::Write, 0, Some(6)),
            (new, Side::Master, Direction::Read, 0, Some(6)),
            (new, Side::Local, Direction::Read, 0, Some(11)),
            (two, Side::Master, Direction::Write, 2, None),
            (two, Side::Master, Direction::Write, 3, Some(8)),
            (two, Side::Master, Direction::Write, 0, None),
            (two, Side::Local, Direction::Read, 0, None),
            (
                Facts {
                    closed: true,
                    ..two
                },
                Side::Master,
                Direction::Write,
                3,
                Some(7),
            ),
            (
                Facts {
                    closed: true,
                    ..two
                },
                Side::Local,
                Direction::Read,
                0,
                None,
            ),
            (
                Facts {
                    window: mailbox,
                    ..new
                },
                Side::Local,
                Direction::Read,
                0,
                Some(10),
            ),
            (
                Facts {
                    window: mailbox,
                    ..new
                },
                Side::Master,
                Direction::Write,
                0,
                None,
            ),
            (full, Side::Master, Direction::Write, 0, Some(9)),
            (full, Side::Local, Direction::Read, 0, None),
        ];
        // an access, and the number of its refusal
        for (facts, side, direction, offset, number) in table {
            let asked = facts.ask(side, direction, START + u32::from(offset));
            assert_eq!(rt; asked.err().map(Refusal::number), number);
        }
    }

    // Each register octet of a channel, written with all bits and with none, and what is read then.
    #[test]
    fn register_octets(rt: HostRuntime) {
        let zero = Setting::default();
        let kept = [0xff, 0xff, 0xff, 0xff, 0x7f, 0x30, 0x01, 0x00];
        for (index, octet) in (0u8..8).zip(kept) {
            let ones = zero.with_octet(index, 0xff);
            assert_eq!(rt; ones.octet(index, 0x30), octet);
            assert_eq!(rt; ones.with_octet(index, 0), zero);
        }
        assert_eq!(rt; zero.with_octet(0, 0x34).with_octet(1, 0x12).start, 0x1234);
        assert_eq!(rt; zero.with_octet(2, 0x34).with_octet(3, 0x12).length, 0x1234);
    }

    #[test]
    fn channel_at_an_address(rt: HostRuntime) -> Result<(), Fail> {
        let first = Channel {
            service: Some(Service::begun(setting(0x1000, 4, 0).judged(64, &[])?)),
        };
        let third = Channel {
            service: Some(Service::begun(setting(0x100c, 4, 2).judged(64, &[first])?)),
        };
        let channels = [first, OFF, third];
        assert_eq!(rt; lowest_covering(&channels, 0x0fff), None);
        assert_eq!(rt; lowest_covering(&channels, 0x1000), Some(0));
        assert_eq!(rt; lowest_covering(&channels, 0x100b), Some(0));
        assert_eq!(rt; lowest_covering(&channels, 0x100c), Some(2));
        assert_eq!(rt; lowest_covering(&channels, 0x100f), Some(2));
        assert_eq!(rt; lowest_covering(&channels, 0x1010), None);
        Ok(())
    }
}
