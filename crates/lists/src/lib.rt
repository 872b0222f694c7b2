// What a street list tells of its sheet.
#![tactic(auto)]

ghost use Rattle.lists.specs.Statements.{ListsCover, SidewalksPart, TextsTell, ListsTell};

// Left of the arrows of a list stands every dart once and no other, each followed by its next.
pub fn lists_cover()
    ensures { ListsCover }
{}

// Where no road fails, the darts on sidewalks are those on no ring, each on one sidewalk and once.
pub fn sidewalks_part()
    ensures { SidewalksPart }
{}

// The bytes of a list determine its size and its lines.
pub fn texts_tell()
    ensures { TextsTell }
{}

// Lists that are given are equal exactly when their sheets are the same map.
pub fn lists_tell()
    ensures { ListsTell }
{}
