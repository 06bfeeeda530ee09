// Laws of the mapping, each carried by the contract of a function.
#![tactic(auto)]

ghost use Rattle.mapping_laws.specs.Lands.{EachBitLandsOnce};
ghost use Rattle.mapping_laws.specs.Moves.{WrittenBitsComeBack};
ghost use Rattle.mapping_laws.specs.Serves.{EveryBitServedByOne};
ghost use Rattle.mapping_laws.specs.Whole.{SoleWhole};
ghost use Rattle.mapping_laws.specs.Worked.{AllWorkedCases};

// A logical bit is served by at most one entity of a direction, the lowest active one that covers it; different bits of an entity land on
// different bits.
pub fn bits_are_served_by_one()
    ensures { EveryBitServedByOne }
{}

// The accesses of a logical octet take each served bit to one physical bit, where its entity lands it, and an unserved one nowhere.
pub fn bits_land_once()
    ensures { EachBitLandsOnce }
{}

// A whole-octet access is the only access of its logical octet in that direction.
pub fn whole_is_alone()
    ensures { SoleWhole }
{}

// Bits written and read back through the same entity come back, and every other bit of the physical octets is as it was.
pub fn written_bits_come_back()
    ensures { WrittenBitsComeBack }
{}

// An entity of both directions, read and written through.
pub fn cases_worked()
    ensures { AllWorkedCases }
{}
