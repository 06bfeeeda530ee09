// What a frame's end makes of the channels: services that go on, that end and that begin.
ghost use Rattle.std.specs.Prelude.{◌≡◌, map};
ghost use Rattle.rules.specs.Enabling.{decided, asks, enabled_one, enabled};
ghost use Rattle.rules.specs.Steps.{out_of_service, window_in, begun_channel, kept_channel, dropped_channel, kept_channels};
ghost use Rattle.core_steps.specs.Enablings.{enabled_as, lasting_kept, all_lasting};

use crate::questions::refused_for;
use crate::registers::{service_at, set_service};
use access::list::replaced;
use channel::{Channel, Denial, Service, Setting, Window};
use rules::data::Registers;
use rules::fault::{Fault, Reason};
use std::array;

// The channels, their settings, and the lowest enabling that was refused.
// Two lists, as in the core: the settings also wait in a running frame, where there are no services.
#[derive(Clone, Copy)]
pub struct Enabling {
    pub channels: [Channel; 8],
    pub settings: [Setting; 8],
    pub denied: Option<Fault>,
}

fn dropped_channel(channel: Channel) -> Channel
    ensures { result ≡ dropped_channel channel }
{
    Channel {
        service: channel.service.map(|service| service.after_dropped()),
    }
}

// What the frame accessed is cancelled.
pub fn dropped_channels(channels: &[Channel; 8]) -> [Channel; 8]
    ensures { result ≡ map dropped_channel channels.now }
{
    // By index: `map` takes the array by value, and copies it twice.
    array::from_fn(|i| dropped_channel(channels[i]))
}

fn kept_channel(channel: Channel) -> Channel
    ensures { result ≡ kept_channel channel }
{
    Channel {
        service: channel.service.map(|service| service.after_kept()),
    }
}

// A service lasts while its enable bit is set.
fn lasting_channel(setting: Setting, channel: Channel) -> Channel
    ensures { result ≡ lasting_kept setting channel }
{
    if setting.enable {
        kept_channel(channel)
    } else {
        Channel::default()
    }
}

fn lasting_channels(settings: &[Setting; 8], channels: &[Channel; 8]) -> [Channel; 8]
    ensures { result ≡ all_lasting settings.now channels.now }
{
    // By index: of what a `zip` over both leaves in the array a proof knows nothing.
    array::from_fn(|i| lasting_channel(settings[i], channels[i]))
}

// An index goes with its setting, as one element of the settings counted.
impl Enabling {
    fn asks(&self, index: u8, setting: Setting) -> bool
        ensures { result ≡ asks window_in begun_channel out_of_service index setting (enabled_as self.now) }
    {
        setting.enable && service_at(&self.channels, index).is_none()
    }

    // A refused one keeps enable 0.
    fn decide(&mut self, index: u8, setting: Setting, judged: Result<Window, Denial>)
        ensures { enabled_as self.new ≡ decided window_in begun_channel out_of_service index setting judged (enabled_as self.old) }
    {
        match judged {
            Ok(window) => set_service(&mut self.channels, index, Service::begun(window)),
            Err(denial) => {
                let disabled = Setting {
                    enable: false,
                    ..setting
                };
                self.settings = replaced(self.settings, index, disabled);
                self.denied = self
                    .denied
                    .or(Some(refused_for(index, Reason::Enabling(denial), 0)));
            }
        }
    }

    fn enable_one(&mut self, size: usize, index: u8, setting: Setting)
        ensures { enabled_as self.new ≡ enabled_one window_in begun_channel out_of_service size index setting (enabled_as self.old) }
    {
        if self.asks(index, setting) {
            let judged = setting.judged(size, &self.channels);
            self.decide(index, setting, judged);
        }
    }
}

// One after the other: one accepted counts for those after it.
fn enable_all(size: usize, settings: &[Setting; 8], channels: [Channel; 8]) -> Enabling
    ensures { enabled_as result ≡ enabled window_in begun_channel out_of_service size settings.now channels }
{
    let mut so_far = Enabling {
        channels,
        settings: *settings,
        denied: None,
    };
    for (index, setting) in settings.iter().enumerate() {
        so_far.enable_one(size, index as u8, *setting);
    }
    so_far
}

// A kept end, with these registers: waiting transactions complete, services end, enablings are judged.
pub fn kept_channels(size: usize, registers: &Registers, channels: &[Channel; 8]) -> Enabling
    ensures { enabled_as result ≡ kept_channels size registers.now channels.now }
{
    let lasting = lasting_channels(&registers.settings, channels);
    enable_all(size, &registers.settings, lasting)
}
