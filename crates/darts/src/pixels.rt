// How many pixels there are, and how many places on their roads.
ghost use Rattle.std.specs.Prelude.{◌≡◌, ◌≤◌};
ghost use Rattle.symbols.specs.Symbols.{road_code};
ghost use Rattle.rules.specs.Crossings.{count_on};
ghost use Rattle.drawings.specs.Drawings.{crossings};
ghost use Rattle.model.specs.Sheets.{pixels};
ghost use Rattle.stores.specs.Sources.{sheet_told};

use drawings::Drawing;
use stores::Source;
use symbols::Road;

// How many pixels there are.
pub fn pixels_of<S: Source>(source: &S) -> u32
    ensures { result ≡ pixels (sheet_told (S.told source.now)) }
{
    u32::from(source.width()) * u32::from(source.height())
}

// How many crossings a road has, at most 60.
fn few_on(drawing: &Drawing, road: Road) -> usize
    ensures is { result ≡ count_on (road_code road) (crossings drawing.now) }
    ensures few { result ≤ 60 }
{
    drawing.count_on(road)
}

// How many places a road has.
pub fn places(drawing: &Drawing, road: Road) -> u8
    ensures is { result ≡ count_on (road_code road) (crossings drawing.now) }
    ensures few { result ≤ 60 }
{
    few_on(drawing, road) as u8
}
