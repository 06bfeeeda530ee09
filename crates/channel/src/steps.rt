// What a done access and a frame's end make of a service, its status octet, and the places in the memory.
ghost use Rattle.std.specs.Prelude.{◌≡◌, ◌≤◌, true};
ghost use Rattle.channel.specs.Services.{taken_by, touched_by, closed_by, closes, accessed, left, cancelled, number_of, present, roles_opened, shown_opened, emptied, begun, facts_of, writing_done, reading_done, writing_done_if, reading_done_if, at_once, other_side, with_store, after_store, opened_if, opened, with_fetch, after_fetch, store_place, fetch_place, frame_left, after_kept, after_dropped, shown_number, kind_bits, status_of};
ghost use Rattle.channel.specs.Windows.{place_in};

use crate::facts::Facts;
use crate::service::{Buffer, Roles, Service, Shown, Transaction};
use crate::setting::{Kind, Window};
use access::Side;

impl Transaction {
    // The octets taken: 0 if none is open, since an open one has taken at least 1.
    fn taken(self) -> u16
        ensures { result ≡ taken_by self }
    {
        match self {
            Transaction::Open { taken, .. } => taken,
            Transaction::Idle | Transaction::Waiting => 0,
        }
    }

    // Has the running frame accessed it?
    fn touched(self) -> bool
        ensures { result ≡ touched_by self }
    {
        matches!(
            self,
            Transaction::Open { accessed: true, .. } | Transaction::Waiting
        )
    }

    // Has the running frame closed it?
    fn closed(self) -> bool
        ensures { result ≡ closed_by self }
    {
        matches!(self, Transaction::Waiting)
    }

    // One more access, by `side`. (The whole window is handed in: where an offset does not close it, one more is below its length.)
    fn accessed(self, side: Side, offset: u16, window: Window) -> Transaction
        ensures { result ≡ accessed side self offset (closes window offset) }
    {
        if window.closes(offset) {
            Transaction::Waiting
        } else {
            Transaction::Open {
                taken: self.taken().max(offset + 1),
                accessed: side == Side::Master,
            }
        }
    }

    // A frame has ended, and an open transaction stays open.
    fn left(self) -> Transaction
        ensures { result ≡ left self }
    {
        match self {
            Transaction::Open { taken, .. } => Transaction::Open {
                taken,
                accessed: false,
            },
            Transaction::Idle | Transaction::Waiting => Transaction::Idle,
        }
    }

    // A frame has been dropped.
    fn cancelled(self) -> Transaction
        ensures { result ≡ cancelled self }
    {
        if self.touched() {
            Transaction::Idle
        } else {
            self
        }
    }
}

impl Buffer {
    fn number(self) -> u8
        ensures { result ≡ number_of self }
    {
        self as u8
    }
}

impl Shown {
    // Is there a message to read?
    fn present(self) -> bool
        ensures { result ≡ present self }
    {
        !matches!(self, Shown::Nothing)
    }
}

impl Window {
    // The side that reads.
    fn fetches(self) -> Side
        ensures { result ≡ other_side self.stores }
    {
        match self.stores {
            Side::Master => Side::Local,
            Side::Local => Side::Master,
        }
    }

    // The access at the last offset closes a transaction.
    fn closes(self, offset: u16) -> bool
        ensures { result ≡ closes self offset }
    {
        u32::from(self.length) <= u32::from(offset) + 1
    }

    // The local side's transaction completes on closing, the master's waits.
    fn completes(self, side: Side, offset: u16) -> bool
        ensures { result ≡ at_once side (closes self offset) }
    {
        side == Side::Local && self.closes(offset)
    }

    // Where an offset of a buffer stands in the memory.
    fn place(self, buffer: Buffer, offset: u16) -> u32
        ensures { result ≡ place_in self (number_of buffer) offset }
    {
        let first = u32::from(self.start).saturating_sub(0x1000);
        let number = match self.kind {
            Kind::Mailbox => 0,
            Kind::Buffered => buffer.number(),
        };
        first + u32::from(number) * u32::from(self.length) + u32::from(offset)
    }
}

impl Service {
    // The service at an accepted enabling.
    pub fn begun(window: Window) -> Service
        ensures { result ≡ begun window }
    {
        Service {
            window,
            writing: Transaction::Idle,
            reading: Transaction::Idle,
            roles: Roles {
                store: Buffer::First,
                ready: Buffer::Second,
                fetch: Buffer::Third,
            },
            shown: Shown::Nothing,
            write_event: false,
            read_event: false,
        }
    }

    // What the questions before an access need to know.
    pub fn facts(self) -> Facts
        ensures { result ≡ facts_of self }
    {
        Facts {
            window: self.window,
            stored: self.writing.taken(),
            fetched: self.reading.taken(),
            closed: self.writing.closed() || self.reading.closed(),
            message: self.shown.present(),
        }
    }

    // The place of the memory that a store at this offset concerns.
    pub fn store_place(self, offset: u16) -> u32
        ensures { result ≡ store_place self offset }
    {
        self.window.place(self.roles.store, offset)
    }

    // The place of the memory that a fetch at this offset concerns.
    pub fn fetch_place(self, offset: u16) -> u32
        ensures { result ≡ fetch_place self offset }
    {
        self.window.place(self.opened().roles.fetch, offset)
    }

    // A store at this offset was done.
    pub fn after_store(self, offset: u16) -> Service
        ensures { result ≡ after_store self offset }
    {
        let window = self.window;
        self.with_store(offset)
            .writing_done_if(window.completes(window.stores, offset))
    }

    // A fetch at this offset was done.
    pub fn after_fetch(self, offset: u16) -> Service
        ensures { result ≡ after_fetch self offset }
    {
        // An `if` and no `reading_done_if`, which costs half as much again here.
        let window = self.window;
        let fetched = self.opened().with_fetch(offset);
        if window.completes(window.fetches(), offset) {
            fetched.reading_done()
        } else {
            fetched
        }
    }

    // The running frame's end is kept: what it closed completes.
    pub fn after_kept(self) -> Service
        ensures { result ≡ after_kept self }
    {
        self.writing_done_if(self.writing.closed())
            .reading_done_if(self.reading.closed())
            .frame_left()
    }

    // The running frame is dropped: every transaction that it accessed is cancelled, and nothing else is put back.
    pub fn after_dropped(self) -> Service
        ensures { result ≡ after_dropped self }
    {
        Service {
            writing: self.writing.cancelled(),
            reading: self.reading.cancelled(),
            ..self
        }
    }

    // Bits 0 and 1 are the events; bit 3 tells a full mailbox; bits 5 and 4 number the buffer that the next reading shows, 3 if there is none yet.
    pub(crate) fn status(self) -> u8
        ensures { result ≡ status_of self }
    {
        u8::from(self.write_event) + 2 * u8::from(self.read_event) + self.kind_bits()
    }

    fn kind_bits(self) -> u8
        ensures value { result ≡ kind_bits self.window.kind self }
        ensures small { result ≤ 48 }
    {
        match self.window.kind {
            Kind::Mailbox => 8 * u8::from(self.shown.present()),
            Kind::Buffered => 16 * self.shown_number(),
        }
    }

    fn shown_number(self) -> u8
        ensures value { result ≡ shown_number self.roles self.shown }
        ensures small { result ≤ 3 }
    {
        match self.shown {
            Shown::Nothing => 3,
            Shown::Ready => self.roles.ready.number(),
            Shown::Fetch => self.roles.fetch.number(),
        }
    }

    // An opening writing clears the read event.
    fn with_store(self, offset: u16) -> Service
        ensures { result ≡ with_store self offset }
    {
        let window = self.window;
        Service {
            writing: self.writing.accessed(window.stores, offset, window),
            read_event: self.read_event && self.writing.taken() != 0,
            ..self
        }
    }

    fn with_fetch(self, offset: u16) -> Service
        ensures { result ≡ with_fetch self offset }
    {
        let window = self.window;
        Service {
            reading: self.reading.accessed(window.fetches(), offset, window),
            ..self
        }
    }

    // The service once a reading stands open: one that opens clears the write event and chooses the buffer, one that goes on stays with it.
    fn opened(self) -> Service
        ensures { result ≡ opened self }
    {
        if self.reading.taken() == 0 {
            Service {
                roles: self.roles.opened(self.shown),
                shown: self.shown.opened(),
                write_event: false,
                ..self
            }
        } else {
            self
        }
    }

    // A completed writing exchanges store and ready, and the ready one is fresh.
    fn writing_done(self) -> Service
        ensures { result ≡ writing_done self }
    {
        Service {
            writing: Transaction::Idle,
            roles: Roles {
                store: self.roles.ready,
                ready: self.roles.store,
                ..self.roles
            },
            shown: Shown::Ready,
            write_event: true,
            ..self
        }
    }

    // A completed reading empties a mailbox.
    fn reading_done(self) -> Service
        ensures { result ≡ reading_done self }
    {
        Service {
            reading: Transaction::Idle,
            shown: self.shown.emptied(self.window.kind),
            read_event: true,
            ..self
        }
    }

    // Each names its own step: one function over both would be handed the step, and be no shorter.
    fn writing_done_if(self, done: bool) -> Service
        ensures { result ≡ writing_done_if done self }
    {
        if done { self.writing_done() } else { self }
    }

    fn reading_done_if(self, done: bool) -> Service
        ensures { result ≡ reading_done_if done self }
    {
        if done { self.reading_done() } else { self }
    }

    fn frame_left(self) -> Service
        ensures { result ≡ frame_left self }
    {
        Service {
            writing: self.writing.left(),
            reading: self.reading.left(),
            ..self
        }
    }
}

impl Roles {
    // A reading opens: a fresh ready buffer becomes the fetch buffer.
    fn opened(self, shown: Shown) -> Roles
        ensures { result ≡ roles_opened shown self }
    {
        match shown {
            Shown::Ready => Roles {
                ready: self.fetch,
                fetch: self.ready,
                ..self
            },
            Shown::Nothing | Shown::Fetch => self,
        }
    }
}

impl Shown {
    fn opened(self) -> Shown
        ensures { result ≡ shown_opened self }
    {
        match self {
            Shown::Ready => Shown::Fetch,
            Shown::Nothing | Shown::Fetch => self,
        }
    }

    fn emptied(self, kind: Kind) -> Shown
        ensures { result ≡ emptied kind self }
    {
        match kind {
            Kind::Mailbox => Shown::Nothing,
            Kind::Buffered => self,
        }
    }
}
