// Passing the road of a dart.
ghost use Rattle.std.specs.Prelude.{◌≡◌, ◌<◌, true, false, MatchOption, MatchResult, nat_lt};
ghost use Rattle.symbols.specs.declared.refusals.Refusal.TheVariants.{NoDart, RoadFails};
ghost use Rattle.symbols.specs.Symbols.{road_code};
ghost use Rattle.rules.specs.Crossings.{count_on};
ghost use Rattle.drawings.specs.Drawings.{crossings};
ghost use Rattle.model.specs.Sheets.{pixels, drawing_at, on_rim, beyond, fails};
ghost use Rattle.model.specs.Darts.{is_dart};
ghost use Rattle.stores.specs.Sources.{sheet_told};
ghost use Rattle.maps.specs.Passing.{far_count, Left, EnteredBy};

use crate::inside::{Leaving, drawing_at};
use crate::pixels::{counts_fail, facing, neighbour, place_across};
use drawings::Drawing;
use model::Dart;
use stores::Source;
use symbols::{Refusal, Road};

// Whether the road of a dart has so many places, in the drawing of its pixel.
pub(crate) fn has_place(drawing: &Drawing, dart: Dart) -> bool
    ensures { result ≡ nat_lt dart.place (count_on (road_code dart.road) (crossings drawing.now)) }
{
    usize::from(dart.place) < drawing.count_on(dart.road)
}

// A dart with the drawing of the pixel that it leaves; refused where there is no such dart.
pub(crate) fn leaving<S: Source>(source: &S, dart: Dart) -> Result<Leaving, Refusal>
    ensures { MatchResult result
        (λ l. (l.dart ≡ dart) × Left (sheet_told (S.told source.now)) dart (crossings l.drawing))
        (λ f. (f ≡ NoDart) × (is_dart (sheet_told (S.told source.now)) dart ≡ false)) }
{
    let drawing = drawing_at(source, dart.pixel).ok_or(Refusal::NoDart)?;
    if !has_place(&drawing, dart) {
        return Err(Refusal::NoDart);
    }
    Ok(Leaving { dart, drawing })
}

// The pixel on the other side of a road with its drawing, if there is one.
fn far_side<S: Source>(source: &S, pixel: u32, road: Road) -> Option<(u32, Drawing)>
    requires { pixel < pixels (sheet_told (S.told source.now)) }
    ensures { MatchOption result
        (on_rim (sheet_told (S.told source.now)) pixel road ≡ true)
        (λ x. (on_rim (sheet_told (S.told source.now)) pixel road ≡ false) × (x.0 ≡ beyond (sheet_told (S.told source.now)) pixel road) × (crossings x.1 ≡ drawing_at (sheet_told (S.told source.now)) x.0)) }
{
    let beyond = neighbour(source, pixel, road)?;
    Some((beyond, drawing_at(source, beyond).unwrap()))
}

// The count of a road on its far side, if there is a pixel beyond it.
pub(crate) fn far_count<S: Source>(source: &S, pixel: u32, road: Road) -> Option<usize>
    requires { pixel < pixels (sheet_told (S.told source.now)) }
    ensures { result ≡ far_count (sheet_told (S.told source.now)) pixel road }
{
    let (_, drawing) = far_side(source, pixel, road)?;
    Some(drawing.count_on(facing(road)))
}

// Passes the road of a dart; refused where the road fails.
pub(crate) fn pass<S: Source>(source: &S, from: &Leaving) -> Result<Leaving, Refusal>
    requires { Left (sheet_told (S.told source.now)) from.now.dart (crossings from.now.drawing) }
    ensures { MatchResult result
        (λ e. EnteredBy (sheet_told (S.told source.now)) from.now.dart e.dart (crossings e.drawing))
        (λ f. (f ≡ RoadFails from.now.dart.pixel from.now.dart.road) × (fails (sheet_told (S.told source.now)) from.now.dart.pixel from.now.dart.road ≡ true)) }
{
    let Dart { pixel, road, place } = from.dart;
    let refused = Refusal::RoadFails { pixel, road };
    // no `ok_or`: measured, it moves the drawing once more
    let Some((beyond, drawing)) = far_side(source, pixel, road) else {
        return Err(refused);
    };
    let here = from.drawing.count_on(road);
    let entered = facing(road);
    if counts_fail(here, Some(drawing.count_on(entered))) {
        return Err(refused);
    }
    Ok(Leaving {
        dart: Dart {
            pixel: beyond,
            road: entered,
            place: place_across(here, place),
        },
        drawing,
    })
}
