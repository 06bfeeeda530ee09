// The promise about messages, of the rules: for every memory of at most 61,440 octets, every station number and every list of calls.
ghost use Rattle.rules.specs.Promise.{MessagesAreWhole};

pub fn messages_are_whole()
    ensures { MessagesAreWhole }
{}
