// The station: a buffered channel, a dropped frame, a frame of another station.
ghost use Rattle.std.specs.Prelude.{◌≤◌, length};

#[cfg(test)]
mod tests {
    use crate::common::{MESSAGE, STORING, header};
    use frame::progress::Verdict;
    use memory::Memory;
    use memory::row::Row;
    use rules::fault::Fault;
    use station::{Frame, Station};
    use std::test::Fail;

    fn feed<M: Memory>(station: &mut Station<M>, frame: &Frame, octets: &[u8]) {
        for octet in octets {
            let _ = station.octet(frame, *octet);
        }
    }

    // The lowest enabling that was refused, if any, or the number of the refusal.
    fn ended<M: Memory>(
        station: &mut Station<M>,
        frame: Frame,
        verdict: Verdict,
    ) -> Result<Option<Fault>, u8> {
        station
            .end(frame, verdict)
            .map_err(|refusal| refusal.fault().number())
    }

    // One datagram APWR for the first station.
    fn sent<M: Memory>(
        station: &mut Station<M>,
        ado: u16,
        payload: &[u8],
        verdict: Verdict,
    ) -> Result<Option<Fault>, u8>
        requires { length payload.now ≤ 8 }
    {
        let frame = station.begin().map_err(Fault::number)?;
        feed(station, &frame, &header(ado, payload));
        feed(station, &frame, payload);
        feed(station, &frame, &[0, 0]);
        ended(station, frame, verdict)
    }

    // The same calls in the other module, by another `sent`: a function over both would need that one's contract.
    #[test]
    fn buffered(rt: HostRuntime) {
        let mut cells = [0u8; 16];
        let mut station = Station::new(Row::new(&mut cells), 7);
        assert_eq!(rt;
            sent(&mut station, 0x0800, &STORING, Verdict::Good),
            Ok(None)
        );
        assert_eq!(rt; station.read(0x1000).map_err(Fault::number), Err(11));
        assert_eq!(rt; sent(&mut station, 0x1000, &MESSAGE, Verdict::Bad), Err(18));
        assert_eq!(rt; station.read(0x1000).map_err(Fault::number), Err(11));
        assert_eq!(rt;
            sent(&mut station, 0x1000, &MESSAGE, Verdict::Good),
            Ok(None)
        );
        assert_eq!(rt; station.read(0x1000).map_err(Fault::number), Ok(0x11));
        assert_eq!(rt; station.read(0x1002).map_err(Fault::number), Err(8));
        let _ = station.into_memory();
    }

    #[test]
    fn of_another_station(rt: HostRuntime) -> Result<(), Fail> {
        let mut cells = [0u8; 16];
        let mut others = [0u8; 16];
        let mut station = Station::new(Row::new(&mut cells), 7);
        let mut other = Station::new(Row::new(&mut others), 8);
        let frame = other.begin()?;
        assert_eq!(rt; ended(&mut station, frame, Verdict::Good), Err(15));
        let _ = station.into_memory();
        let _ = other.into_memory();
        Ok(())
    }
}
