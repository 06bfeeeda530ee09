// The station under a driver: a buffered channel, a dropped frame, a frame handed to another station.
ghost use Rattle.std.specs.Prelude.{◌≡◌, ◌≤◌, length, Some};
ghost use Rattle.station.specs.Replies.{frame_in};

#[cfg(test)]
mod tests {
    use crate::common::{MESSAGE, STORING, header};
    use crate::driver::transmit;
    use frame::progress::Verdict;
    use memory::Memory;
    use memory::row::Row;
    use rules::fault::Fault;
    use station::{EndRefusal, Frame, Station};
    use std::test::Fail;

    // A frame with one datagram APWR for the first station: the lowest enabling that was refused, if any, or the number of the refusal.
    fn sent<M: Memory>(
        station: &mut Station<M>,
        ado: u16,
        payload: &[u8],
        verdict: Verdict,
    ) -> Result<Option<Fault>, u8>
        requires { length payload.now ≤ 8 }
    {
        let mut room = [0; 22];
        let end = 12 + payload.len();
        let octets = &mut room[..end + 2];
        octets[..12].copy_from_slice(&header(ado, payload));
        octets[12..end].copy_from_slice(payload);
        transmit(station, octets, verdict).map_err(Fault::number)
    }

    // Ends the frame that runs, so it is not handed back.
    fn ended<M: Memory>(
        station: &mut Station<M>,
        frame: Frame,
        verdict: Verdict,
    ) -> Result<Option<Fault>, u8>
        requires { frame_in station.old.station.core ≡ Some frame.number }
    {
        match station.end(frame, verdict) {
            Ok(enabling) => Ok(enabling),
            Err(EndRefusal::Dropped(fault)) => Err(fault.number()),
            Err(EndRefusal::NotThisFrame(_frame)) => unreachable!(),
        }
    }

    // A frame that is handed to the wrong station comes back, which is refusal 15, and is ended at its own: how both ends go.
    fn astray<M: Memory, O: Memory>(
        wrong: &mut Station<M>,
        own: &mut Station<O>,
    ) -> Result<[Result<Option<Fault>, u8>; 2], Fault> {
        let frame = own.begin()?;
        match wrong.end(frame, Verdict::Good) {
            Ok(enabling) => Ok([Ok(enabling), Ok(None)]),
            Err(EndRefusal::Dropped(fault)) => Ok([Err(fault.number()), Ok(None)]),
            Err(EndRefusal::NotThisFrame(frame)) => Ok([Err(15), ended(own, frame, Verdict::Bad)]),
        }
    }

    // The same calls in the other module, by another `sent`: a function over both would need that one's contract.
    #[test]
    fn buffered(rt: HostRuntime) {
        let mut cells = [0u8; 16];
        let mut station = Station::new(Row::new(&mut cells), 7);
        assert_eq!(rt;
            sent(&mut station, 0x0800, &STORING, Verdict::Good),
            Ok(None)
        );
        assert_eq!(rt; station.read(0x1000).map_err(Fault::number), Err(11));
        assert_eq!(rt; sent(&mut station, 0x1000, &MESSAGE, Verdict::Bad), Err(18));
        assert_eq!(rt; station.read(0x1000).map_err(Fault::number), Err(11));
        assert_eq!(rt;
            sent(&mut station, 0x1000, &MESSAGE, Verdict::Good),
            Ok(None)
        );
        assert_eq!(rt; station.read(0x1000).map_err(Fault::number), Ok(0x11));
        assert_eq!(rt; station.read(0x1002).map_err(Fault::number), Err(8));
        let _ = station.into_memory();
    }

    #[test]
    fn of_another_station(rt: HostRuntime) -> Result<(), Fail> {
        let mut cells = [0u8; 16];
        let mut others = [0u8; 16];
        let mut station = Station::new(Row::new(&mut cells), 7);
        let mut other = Station::new(Row::new(&mut others), 8);
        assert_eq!(rt; astray(&mut station, &mut other)?, [Err(15), Err(17)]);
        let _ = station.into_memory();
        let _ = other.into_memory();
        Ok(())
    }
}
