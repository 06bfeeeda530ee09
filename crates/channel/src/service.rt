// A channel in service, as plain data.
use crate::setting::Window;

// The transaction of one direction. While it is open: the octets taken, at most L − 1 of them, and has the running frame accessed it. A master's
// waits, closed by the running frame, for that frame's end.
#[derive(Clone, Copy)]
pub enum Transaction {
    Idle,
    Open { taken: u16, accessed: bool },
    Waiting,
}

// The three buffers of an area, in the order of their addresses.
#[derive(Clone, Copy)]
pub enum Buffer {
    First,
    Second,
    Third,
}

// Where a writing stores, where the latest completed one stands ready, where a reading fetches: always three different buffers. A mailbox has one
// buffer, the first, for all three.
#[derive(Clone, Copy)]
pub struct Roles {
    pub store: Buffer,
    pub ready: Buffer,
    pub fetch: Buffer,
}

// Where the message stands that the next reading shows: nowhere, before the first completed writing or in an empty mailbox; in the ready buffer,
// which is then fresh; or in the fetch buffer. An `Option` of the last two would nest one enum in another.
#[derive(Clone, Copy)]
pub enum Shown {
    Nothing,
    Ready,
    Fetch,
}

// `write_event` and `read_event` are bits 0 and 1 of the status octet.
#[derive(Clone, Copy)]
pub struct Service {
    pub(crate) window: Window,
    pub(crate) writing: Transaction,
    pub(crate) reading: Transaction,
    pub(crate) roles: Roles,
    pub(crate) shown: Shown,
    pub(crate) write_event: bool,
    pub(crate) read_event: bool,
}
