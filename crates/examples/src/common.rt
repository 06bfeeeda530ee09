// What the tests of a station share. They tell a refusal by its number, as the rules do. That a datagram has at most eight octets here is asked by
// each helper, since no type of a slice says it.
ghost use Rattle.std.specs.Prelude.{◌≤◌, length};

// The registers of a channel: start 0x1000, four octets, buffered, the master stores, enabled.
pub(crate) const STORING: [u8; 8] = [0x00, 0x10, 4, 0, 0x04, 0, 1, 0];

pub(crate) const MESSAGE: [u8; 4] = [0x11, 0x22, 0x33, 0x44];

// A frame with one datagram APWR for the first station, up to its data.
pub(crate) fn header(ado: u16, payload: &[u8]) -> [u8; 12]
    requires { length payload.now ≤ 8 }
{
    let [low, high] = ado.to_le_bytes();
    let count = payload.len() as u8;
    [12 + count, 0x10, 2, 0, 0, 0, low, high, count, 0, 0, 0]
}
