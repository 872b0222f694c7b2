// Each street has two sidewalks.
#![tactic(auto)]

ghost use Rattle.streets_pair.specs.Statements.{StreetsPair, StreetsHalve};

// Where no road fails, the sidewalks pair off: the two of a street run opposite ways through opposite darts.
pub fn streets_pair()
    ensures { StreetsPair }
{}

// The streets that are counted are half the sidewalks, with none left over.
pub fn streets_halve()
    ensures { StreetsHalve }
{}
