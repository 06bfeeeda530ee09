// Memories at their borders.
#[cfg(test)]
mod tests {
    use memory::Memory;
    use memory::fault::MemoryFault;
    use memory::joined::Joined;
    use memory::operation::{Operation, read_after};
    use memory::row::Row;
    use memory::words::Words;
    use std::process::Abort;
    use std::test::Fail;

    // A place that the memory has keeps what is written there.
    fn keeps<M: Memory>(rt: &impl Abort, memory: &mut M, place: u32, octet: u8) {
        assert_eq!(rt; memory.write(place, octet), Ok(()));
        assert_eq!(rt; memory.read(place), Ok(octet));
    }

    // A place that it lacks is refused with 4, by name.
    fn lacks<M: Memory>(rt: &impl Abort, memory: &mut M, place: u32) {
        let fault = MemoryFault::at(place);
        assert_eq!(rt; memory.read(place), Err(fault));
        assert_eq!(rt; memory.write(place, 0xff), Err(fault));
        assert_eq!(rt; fault.number(), 4);
        assert_eq!(rt; fault.place(), place);
    }

    // The size, the first and the last place, the first beyond, and the largest number.
    fn borders<M: Memory>(rt: &impl Abort, memory: &mut M, size: u16) {
        assert_eq!(rt; memory.size(), size as usize);
        if size > 0 {
            keeps(rt, memory, 0, 0x12);
            keeps(rt, memory, u32::from(size - 1), 0x34);
        }
        lacks(rt, memory, u32::from(size));
        lacks(rt, memory, u32::MAX);
    }

    #[test]
    fn rows(rt: HostRuntime) -> Result<(), Fail> {
        let table = [
            (0, 0),
            (1, 1),
            (7, 7),
            (61_439, 61_439),
            (61_440, 61_440),
            (61_441, 61_440),
        ];
        for (cells, size) in table {
            let mut row = vec![in rt.alloc(); 0u8; cells]?;
            borders(&rt, &mut Row::new(row.as_mut_slice()), size);
        }
        Ok(())
    }

    #[test]
    fn words(rt: HostRuntime) -> Result<(), Fail> {
        let table = [
            (0, 0),
            (1, 2),
            (3, 6),
            (30_719, 61_438),
            (30_720, 61_440),
            (30_721, 61_440),
        ];
        for (cells, size) in table {
            let mut words = vec![in rt.alloc(); 0u16; cells]?;
            borders(&rt, &mut Words::new(words.as_mut_slice()), size);
        }
        Ok(())
    }

    #[test]
    fn halves_of_a_word(rt: HostRuntime) {
        let mut cells = [0xaabbu16; 2];
        let mut words = Words::new(&mut cells);
        assert_eq!(rt; words.read(0), Ok(0xbb));
        assert_eq!(rt; words.read(1), Ok(0xaa));
        keeps(&rt, &mut words, 2, 0x01);
        assert_eq!(rt; words.read(3), Ok(0xaa));
        keeps(&rt, &mut words, 1, 0x02);
        assert_eq!(rt; words.read(0), Ok(0xbb));
    }

    #[test]
    fn joins(rt: HostRuntime) -> Result<(), Fail> {
        let table = [
            (0, 0, 0),
            (0, 1, 2),
            (1, 0, 1),
            (3, 2, 7),
            (61_439, 1, 61_440),
            (61_440, 1, 61_440),
            (1, 30_720, 61_440),
        ];
        for (cells, words, size) in table {
            let mut row = vec![in rt.alloc(); 0u8; cells]?;
            let mut words = vec![in rt.alloc(); 0u16; words]?;
            let row = Row::new(row.as_mut_slice());
            let words = Words::new(words.as_mut_slice());
            borders(&rt, &mut Joined::new(row, words), size);
        }
        Ok(())
    }

    #[test]
    fn join_of_joins(rt: HostRuntime) {
        let mut low = [1u8; 3];
        let mut middle = [0x0302u16; 2];
        let mut high = [4u8; 2];
        let inner = Joined::new(Words::new(&mut middle), Row::new(&mut high));
        let mut all = Joined::new(Row::new(&mut low), inner);
        borders(&rt, &mut all, 9);
        let held = [0x12, 1, 1, 2, 3, 2, 3, 4, 0x34];
        for (place, octet) in held.iter().enumerate() {
            assert_eq!(rt; all.read(place as u32), Ok(*octet));
        }
    }

    #[test]
    fn the_last_write_is_read(rt: HostRuntime) {
        let mut cells = [9u8; 4];
        let mut row = Row::new(&mut cells);
        let operations = [
            Operation::Write { place: 2, octet: 5 },
            Operation::Read { place: 2 },
            Operation::Write { place: 4, octet: 6 },
            Operation::Write { place: 2, octet: 7 },
        ];
        assert_eq!(rt; read_after(&mut row, &operations, 2), Ok(7));
        assert_eq!(rt; read_after(&mut row, &[], 1), Ok(9));
        assert_eq!(rt;
            read_after(&mut row, &operations, 4),
            Err(MemoryFault::at(4))
        );
    }
}
