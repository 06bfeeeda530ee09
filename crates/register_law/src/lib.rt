// The law of the register map, address by address.
#![tactic(auto)]

ghost use Rattle.register_law.specs.Map.{RegistersReadBack};

// What is written at an address is read back from it, as far as its bits are kept, and at every other address the same as before.
pub fn registers_read_back()
    ensures { RegistersReadBack }
{}
