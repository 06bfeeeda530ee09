// The mapping of logical bits at its borders.
#[cfg(test)]
mod tests {
    use access::Direction;
    use bits::share::Share;
    use mapping::accesses::accesses_at;
    use mapping::entity::Entity;
    use mapping::mapped::Access;
    use mapping::serving::server;
    use std::process::Abort;

    const READ: Direction = Direction::Read;

    const WRITE: Direction = Direction::Write;

    // An active entity of both directions.
    fn entity(logical: u32, length: u16, bits: (u8, u8), physical: (u16, u8)) -> Entity {
        Entity {
            logical,
            length,
            start_bit: bits.0,
            stop_bit: bits.1,
            physical: physical.0,
            physical_bit: physical.1,
            reads: true,
            writes: true,
            active: true,
        }
    }

    // The entities, the others unused.
    fn beside(first: Entity, second: Entity, third: Entity) -> [Entity; 8] {
        let unused = Entity::new();
        [first, second, third, unused, unused, unused, unused, unused]
    }

    fn alone(entity: Entity) -> [Entity; 8] {
        beside(entity, Entity::new(), Entity::new())
    }

    fn whole(address: u32) -> Access {
        let share = Share::Whole;
        Access { address, share }
    }

    fn part(address: u32, bits: u8, turn: u8) -> Access {
        let share = Share::Part { bits, turn };
        Access { address, share }
    }

    // The accesses of a logical octet are those, in that order.
    fn makes(
        rt: &impl Abort,
        entities: &[Entity; 8],
        direction: Direction,
        address: u64,
        expected: &[Access],
    ) {
        let accesses = accesses_at(entities, direction, address);
        assert_eq!(rt; accesses.as_slice(), expected);
    }

    fn nothing(rt: &impl Abort, entities: &[Entity; 8], address: u64) {
        makes(rt, entities, READ, address, &[]);
        makes(rt, entities, WRITE, address, &[]);
    }

    #[test]
    fn worked(rt: HostRuntime) {
        let entities = alone(entity(0x2000, 2, (6, 1), (0x1100, 2)));
        makes(&rt, &entities, READ, 0x2000, &[part(0x1100, 0xc0, 4)]);
        makes(&rt, &entities, WRITE, 0x2001, &[part(0x1100, 0x03, 4)]);
        nothing(&rt, &entities, 0x1fff);
        nothing(&rt, &entities, 0x2002);
        let first = Share::of(0xc0, 4);
        let second = Share::of(0x03, 4);
        assert_eq!(rt; first.laid(0x00, 0x2c), 0xc0);
        assert_eq!(rt; second.laid(0x00, 0x2c), 0x02);
        assert_eq!(rt; first.laid(0xff, 0x2c), 0xff);
        assert_eq!(rt; second.laid(0xff, 0x2c), 0xfe);
        assert_eq!(rt; second.stored(first.stored(0x2c, 0x40), 0x01), 0x14);
    }

    #[test]
    fn covered(rt: HostRuntime) {
        // backwards within one octet, and no octet
        nothing(&rt, &alone(entity(0x10, 1, (5, 4), (0x1000, 0))), 0x10);
        nothing(&rt, &alone(entity(0x10, 0, (0, 7), (0x1000, 0))), 0x10);
        nothing(&rt, &alone(entity(0, 0, (0, 7), (0x1000, 0))), 0);
        // start after stop over two octets
        let over = alone(entity(0x10, 2, (7, 0), (0x1000, 7)));
        makes(&rt, &over, READ, 0x10, &[part(0x1000, 0x80, 0)]);
        makes(&rt, &over, READ, 0x11, &[part(0x1001, 0x01, 0)]);
        // at the top of the logical octets, and across
        let top = alone(entity(0xffff_ffff, 2, (0, 7), (0x1000, 0)));
        makes(&rt, &top, READ, 0xffff_ffff, &[whole(0x1000)]);
        nothing(&rt, &top, 0x1_0000_0000);
        let cut = alone(entity(0xffff_fffe, 0xffff, (4, 3), (0x1000, 0)));
        makes(&rt, &cut, WRITE, 0xffff_fffe, &[part(0x1000, 0xf0, 4)]);
        makes(
            &rt,
            &cut,
            WRITE,
            0xffff_ffff,
            &[part(0x1000, 0x0f, 4), part(0x1001, 0xf0, 4)],
        );
        nothing(&rt, &cut, 0x1_0000_0000);
        nothing(&rt, &cut, u64::MAX);
    }

    #[test]
    fn landed(rt: HostRuntime) {
        // whole octets, one after another
        let straight = alone(entity(0x10, 3, (0, 7), (0x1000, 0)));
        makes(&rt, &straight, READ, 0x12, &[whole(0x1002)]);
        makes(
            &rt,
            &alone(entity(0x10, 3, (3, 7), (0x1000, 3))),
            READ,
            0x11,
            &[whole(0x1001)],
        );
        // turned by an odd number of bits, over two physical octets
        let turned = alone(entity(0x10, 2, (0, 7), (0x1000, 3)));
        makes(
            &rt,
            &turned,
            READ,
            0x10,
            &[part(0x1000, 0x1f, 3), part(0x1001, 0xe0, 3)],
        );
        makes(
            &rt,
            &turned,
            READ,
            0x11,
            &[part(0x1001, 0x1f, 3), part(0x1002, 0xe0, 3)],
        );
        // from the first physical bit on, and past the last address
        makes(
            &rt,
            &alone(entity(0x10, 1, (7, 7), (0, 0))),
            READ,
            0x10,
            &[part(0, 0x80, 1)],
        );
        let past = alone(entity(0x10, 0xffff, (0, 7), (0xffff, 7)));
        makes(
            &rt,
            &past,
            READ,
            0x10,
            &[part(0xffff, 0x01, 7), part(0x1_0000, 0xfe, 7)],
        );
        makes(
            &rt,
            &past,
            READ,
            0x1_000e,
            &[part(0x1_fffd, 0x01, 7), part(0x1_fffe, 0xfe, 7)],
        );
    }

    #[test]
    fn served(rt: HostRuntime) {
        // three entities share an octet, the lowest first
        let inner = entity(0x10, 1, (3, 4), (0x1200, 0));
        let lower = entity(0x10, 1, (0, 5), (0x1100, 0));
        let last = entity(0x10, 1, (0, 7), (0x1000, 0));
        let shared = beside(inner, lower, last);
        makes(
            &rt,
            &shared,
            READ,
            0x10,
            &[
                part(0x1200, 0x18, 5),
                part(0x1100, 0x27, 0),
                part(0x1000, 0xc0, 0),
            ],
        );
        assert_eq!(rt; server(&shared, READ, 0x83), Some(0));
        assert_eq!(rt; server(&shared, READ, 0x85), Some(1));
        assert_eq!(rt; server(&shared, READ, 0x86), Some(2));
        assert_eq!(rt; server(&shared, READ, 0x88), None);
        makes(
            &rt,
            &beside(last, lower, inner),
            READ,
            0x10,
            &[whole(0x1000)],
        );
        // one that is not active, and one of the other direction
        let mut asleep = inner;
        asleep.active = false;
        let mut reading = lower;
        reading.writes = false;
        let mixed = beside(asleep, reading, last);
        makes(
            &rt,
            &mixed,
            READ,
            0x10,
            &[part(0x1100, 0x3f, 0), part(0x1000, 0xc0, 0)],
        );
        makes(&rt, &mixed, WRITE, 0x10, &[whole(0x1000)]);
        assert_eq!(rt; server(&mixed, WRITE, 0x80), Some(2));
    }

    #[test]
    fn registers(rt: HostRuntime) {
        let mut entity = Entity::new();
        for index in 0..16 {
            entity = entity.with_octet(index, 0xff);
        }
        // what is kept of eight set bits
        let table = [
            (3, 0xff),
            (5, 0xff),
            (6, 7),
            (7, 7),
            (9, 0xff),
            (10, 7),
            (11, 3),
            (12, 1),
            (13, 0),
            (15, 0),
            (255, 0),
        ];
        for (index, octet) in table {
            assert_eq!(rt; entity.octet(index), octet);
        }
        let changed = entity
            .with_octet(1, 0x20)
            .with_octet(8, 0x12)
            .with_octet(11, 2);
        assert_eq!(rt; changed.logical, 0xffff_20ff);
        assert_eq!(rt; changed.physical, 0xff12);
        assert!(rt; !changed.reads && changed.writes);
    }
}
