// The worked examples of the station: whole runs of calls from a new station, shown of the rules by computation.
#![tactic(auto)]

ghost use Rattle.worked.specs.Examples.{WorkedExamples};

pub fn examples_hold()
    ensures { WorkedExamples }
{}
