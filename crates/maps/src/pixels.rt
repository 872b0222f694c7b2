// How pixels lie on a sheet.
ghost use Rattle.std.specs.Prelude.{◌≡◌, ◌-◌, ◌<◌, ◌≤◌};
ghost use Rattle.model.specs.Sheets.{pixels, on_rim, beyond, facing};
ghost use Rattle.stores.specs.Sources.{sheet_told};
ghost use Rattle.maps.specs.Passing.{neighbour, counts_fail};

use stores::Source;
use symbols::Road;

// Whether a road lies on the rim.
fn on_rim<S: Source>(source: &S, pixel: u32, road: Road) -> bool
    ensures { result ≡ on_rim (sheet_told (S.told source.now)) pixel road }
{
    let row = u64::from(source.width());
    let at = u64::from(pixel);
    match road {
        Road::West => at % row == 0,
        Road::North => at < row,
        Road::East => at % row + 1 == row,
        Road::South => !(at + row < row * u64::from(source.height())),
    }
}

// The pixel on the other side of a road that is not on the rim.
fn beyond<S: Source>(source: &S, pixel: u32, road: Road) -> u32
    requires { pixel < pixels (sheet_told (S.told source.now)) }
    ensures { result ≡ beyond (sheet_told (S.told source.now)) pixel road }
{
    match road {
        Road::West => pixel.saturating_sub(1),
        Road::North => pixel.saturating_sub(u32::from(source.width())),
        Road::East => pixel + 1,
        Road::South => pixel + u32::from(source.width()),
    }
}

// The road by which the pixel beyond is entered.
pub(crate) fn facing(road: Road) -> Road
    ensures { result ≡ facing road }
{
    match road {
        Road::West => Road::East,
        Road::North => Road::South,
        Road::East => Road::West,
        Road::South => Road::North,
    }
}

// Whether a road fails, by its count here and by its count there, if there is a pixel beyond it.
pub(crate) fn counts_fail(here: usize, there: Option<usize>) -> bool
    ensures { result ≡ counts_fail here there }
{
    match there {
        Some(n) => here != n,
        None => 0 < here,
    }
}

// The pixel on the other side of a road, if there is one.
pub(crate) fn neighbour<S: Source>(source: &S, pixel: u32, road: Road) -> Option<u32>
    requires { pixel < pixels (sheet_told (S.told source.now)) }
    ensures { result ≡ neighbour (sheet_told (S.told source.now)) pixel road }
{
    if on_rim(source, pixel, road) {
        return None;
    }
    Some(beyond(source, pixel, road))
}

// Where a place of so many is counted from the other side.
pub(crate) fn place_across(count: usize, place: u8) -> u8
    requires { (place < count) × (count ≤ 60) }
    ensures { result ≡ count - 1 - place }
{
    (count - 1) as u8 - place
}
