// The laws of one sync manager channel in service, over whole runs: told from the calls and their answers alone.
#![tactic(auto)]

ghost use Rattle.channel_law.specs.Enabling.{EnablingsFit};
ghost use Rattle.channel_law.specs.Law.{MessagesAreWhole};
ghost use Rattle.channel_law.specs.Sound.{ServicesStaySound};

// Whatever the window, the octets in the memory and the calls, messages are read whole, and refusals are as the questions say.
pub fn messages_are_whole()
    ensures { MessagesAreWhole }
{}

// The roles of a service are always three different buffers, and an open transaction has taken at most L − 1 octets.
pub fn services_stay_sound()
    ensures { ServicesStaySound }
{}

// An accepted window fits the memory and has no address in common with an area in service.
pub fn enablings_fit()
    ensures { EnablingsFit }
{}
