// Frames octet by octet: commands, counters, places and ends.
ghost use Rattle.examples.specs.FrameCases.{WorkedFrames};

pub fn worked_frames()
    ensures { WorkedFrames }
{}

#[cfg(test)]
mod tests {
    use frame::command::Addresses;
    use frame::datagram::{Place, Wanted};
    use frame::feed::frame_feed;
    use frame::outcome::{Accessed, Outcome};
    use frame::progress::{Progress, Reason, Verdict};
    use std::process::Abort;
    use std::test::Fail;

    const ADDRESSES: Addresses = Addresses {
        station: 0x1001,
        alias: 0x2002,
    };

    // A frame of one datagram with two data octets 0x0f and the counter 0xffff.
    fn frame_of(command: u8, adp: u16, ado: u16) -> [u8; 16] {
        let [adp0, adp1] = adp.to_le_bytes();
        let [ado0, ado1] = ado.to_le_bytes();
        [
            14, 0x10, command, 0x77, adp0, adp1, ado0, ado1, 2, 0, 3, 4, 0x0f, 0x0f, 0xff, 0xff,
        ]
    }

    // Over a memory that holds 0x5a everywhere: ADP as it leaves, the data octets, and what the counter gained.
    fn leaves(rt: &impl Abort, command: u8, adp: u16, out: u16, data: u8, gains: u16) {
        let mut octets = frame_of(command, adp, 0x1000);
        frame_feed(&mut octets, ADDRESSES.station, ADDRESSES.alias, 0x5a);
        let mut expected = frame_of(command, out, 0x1000);
        let [low, high] = 0xffffu16.wrapping_add(gains).to_le_bytes();
        expected[12..].copy_from_slice(&[data, data, low, high]);
        assert_eq!(rt; octets, expected);
    }

    #[test]
    fn addressed(rt: HostRuntime) {
        let table = [
            (1, 0, 1, 0x5a, 1),
            (2, 0, 1, 0x0f, 1),
            (3, 0, 1, 0x5a, 3),
            (4, 0x1001, 0x1001, 0x5a, 1),
            (5, 0x2002, 0x2002, 0x0f, 1),
            (6, 0x2002, 0x2002, 0x5a, 3),
            (7, 0x00ff, 0x0100, 0x5f, 1),
            (8, 0xffff, 0, 0x0f, 1),
            (9, 7, 8, 0x5f, 3),
            (10, 0x00ff, 0x00ff, 0x5a, 1),
            (11, 0xffff, 0xffff, 0x0f, 1),
            (12, 0, 0, 0x5a, 3),
            (13, 0, 1, 0x5a, 1),
            (14, 0x1001, 0x1001, 0x5a, 1),
        ];
        for (command, adp, out, data, gains) in table {
            leaves(&rt, command, adp, out, data, gains);
        }
    }

    #[test]
    fn not_addressed(rt: HostRuntime) {
        let table = [
            (0, 0, 0, 0),
            (1, 0xffff, 0, 0),
            (2, 1, 2, 0),
            (3, 0x01ff, 0x0200, 0),
            (4, 0, 0, 0),
            (5, 0x1002, 0x1002, 0),
            (6, 0x0101, 0x0101, 0),
            (13, 0x1001, 0x1002, 1),
            (14, 0, 0, 1),
            (15, 0, 0, 0),
            (0xff, 0xffff, 0xffff, 0),
        ];
        for (command, adp, out, gains) in table {
            leaves(&rt, command, adp, out, 0x0f, gains);
        }
    }

    fn idle(octet: u8) -> Accessed<()> {
        Accessed::whole(octet, Outcome::NotWanted, Outcome::NotWanted)
    }

    // The first octets of a frame, of which nobody wants an access.
    fn after(octets: &[u8]) -> Progress {
        let mut progress = Progress::begin();
        for octet in octets {
            let _ = progress.octet(*octet, ADDRESSES, &idle(*octet));
        }
        progress
    }

    #[test]
    fn places(rt: HostRuntime) {
        let both = after(&frame_of(9, 3, 0xffff)[0..13]).wanted();
        let wanted = Wanted {
            place: Place::Physical(0x10000),
            read: true,
            write: true,
        };
        assert_eq!(rt; both, Some(wanted));
        let read = after(&frame_of(10, 0xffff, 0xffff)[0..13]).wanted();
        let wanted = Wanted {
            place: Place::Logical(0x1_0000_0000),
            read: true,
            write: false,
        };
        assert_eq!(rt; read, Some(wanted));
        assert_eq!(rt; after(&frame_of(9, 3, 0xffff)[0..11]).wanted(), None);
        assert_eq!(rt; after(&frame_of(9, 3, 0xffff)[0..14]).wanted(), None);
    }

    // The counter of an APRW with two data octets, by what came of their reads; both writes are done.
    fn counter(first: Outcome<u8, u8>, second: Outcome<u8, u8>) -> Result<u8, Reason> {
        let mut progress = after(&frame_of(3, 0, 0x1000)[0..12]);
        let _ = progress.octet(1, ADDRESSES, &Accessed::whole(1, first, Outcome::Done(())));
        let _ = progress.octet(2, ADDRESSES, &Accessed::whole(2, second, Outcome::Done(())));
        progress.octet(0, ADDRESSES, &idle(0))
    }

    #[test]
    fn one_octet_done_is_not_success(rt: HostRuntime) {
        assert_eq!(rt; counter(Outcome::Done(8), Outcome::Done(9)), Ok(3));
        assert_eq!(rt; counter(Outcome::Done(8), Outcome::NotWanted), Ok(3));
        assert_eq!(rt; counter(Outcome::NotWanted, Outcome::NotWanted), Ok(2));
        assert_eq!(rt; counter(Outcome::Done(8), Outcome::Refused(4)), Ok(2));
        assert_eq!(rt; counter(Outcome::Refused(4), Outcome::Done(9)), Ok(2));
    }

    #[test]
    fn ends(rt: HostRuntime) {
        let octets = frame_of(1, 0, 0x1000);
        for cut in 0..16 {
            assert_eq!(rt;
                after(&octets[0..cut]).end(Verdict::Good),
                Err(Reason::Unfinished)
            );
        }
        assert_eq!(rt; after(&octets).end(Verdict::Good), Ok(()));
        assert_eq!(rt; after(&octets).end(Verdict::Bad), Err(Reason::BadCheck));
        assert_eq!(rt; after(&[0, 0x20]).end(Verdict::Good), Ok(()));
        assert_eq!(rt;
            after(&[0, 0x10]).end(Verdict::Good),
            Err(Reason::Unfinished)
        );
    }

    #[test]
    fn limit(rt: HostRuntime) -> Result<(), Fail> {
        let octets = vec![in rt.alloc(); 0u8; 1501]?;
        assert!(rt; octets.len() == 1501);
        assert_eq!(rt; after(&octets[0..1500]).end(Verdict::Good), Ok(()));
        let mut full = after(&octets[0..1500]);
        assert!(rt; !full.has_room());
        assert_eq!(rt; full.octet(7, ADDRESSES, &idle(7)), Err(Reason::TooLong));
        assert_eq!(rt; full.end(Verdict::Good), Err(Reason::TooLong));
        assert_eq!(rt; Reason::TooLong.number(), 16);
        assert_eq!(rt; Reason::Unfinished.number(), 17);
        assert_eq!(rt; Reason::BadCheck.number(), 18);
        Ok(())
    }
}
