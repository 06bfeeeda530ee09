// A channel, in service or not, as an entry that covers addresses; and the judging of an enabling beside the other channels.
ghost use Rattle.std.specs.Prelude.{◌≡◌};
ghost use Rattle.channel.specs.Areas.{last_of, low, high, status_in, touches, touches_in, touches_any, judged_window, judged};

use crate::service::Service;
use crate::setting::{Denial, Setting, Window};
use cover::Span;

// The service lasts from an accepted enabling to the kept frame end that clears the enable bit, and its transactions end with it. A struct around
// the `Option`, since a trait of another crate needs a type of this one.
#[derive(Clone, Copy, Default)]
pub struct Channel {
    pub service: Option<Service>,
}

// Out of service it ends (0) before it begins (1), and so covers nothing.
impl Span for Channel {
    ghost low = { low };

    ghost high = { high };

    fn first(&self) -> u64 {
        self.service
            .as_ref()
            .map_or(1, |service| u64::from(service.window.start))
    }

    fn last(&self) -> u64 {
        self.service
            .as_ref()
            .map_or(0, |service| service.window.last())
    }
}

impl Channel {
    // The status octet, 0 without service.
    pub fn status(self) -> u8
        ensures { result ≡ status_in self.service }
    {
        self.service.map_or(0, |service| service.status())
    }

    fn touches(self, window: Window) -> bool
        ensures { result ≡ touches_in window self.service }
    {
        self.service
            .is_some_and(|service| window.touches(service.window))
    }
}

impl Window {
    // The last address of the area.
    fn last(self) -> u64
        ensures { result ≡ last_of self }
    {
        (u64::from(self.start) + u64::from(self.area_size())).saturating_sub(1)
    }

    // Have the two areas an address in common?
    fn touches(self, other: Window) -> bool
        ensures { result ≡ touches self other }
    {
        u64::from(self.start) <= other.last() && u64::from(other.start) <= self.last()
    }

    fn touches_any(self, channels: &[Channel]) -> bool
        ensures { result ≡ touches_any self channels.now }
    {
        channels.iter().any(|channel| channel.touches(self))
    }

    fn judged(self, size: usize, channels: &[Channel]) -> Result<Window, Denial>
        ensures { result ≡ judged_window size channels.now self }
    {
        if self.length < 2 {
            Err(Denial::Length)
        } else if !self.in_memory(size) {
            Err(Denial::Memory)
        } else if self.touches_any(channels) {
            Err(Denial::Overlap)
        } else {
            Ok(self)
        }
    }
}

impl Setting {
    // Is an enabling accepted, by a memory of `size` octets and beside these channels? The answer is the window that it fixes.
    pub fn judged(self, size: usize, channels: &[Channel]) -> Result<Window, Denial>
        ensures { result ≡ judged size channels.now self }
    {
        self.window().ok_or(Denial::Control)?.judged(size, channels)
    }
}
