// The darts of any source: opposite, next and previous, as the sheet of its words has them.
#![tactic(auto)]

ghost use Rattle.std.specs.Prelude.{◌≡◌, if◌then◌else◌, Some, None, Ok, Err, nat_lt};
ghost use Rattle.symbols.specs.declared.refusals.Refusal.TheVariants.{NoDart};
ghost use Rattle.model.specs.Sheets.{pixels, fails};
ghost use Rattle.model.specs.Darts.{is_dart, opposite, next, previous};
ghost use Rattle.model.specs.Streets.{leaves_vertex};
ghost use Rattle.stores.specs.Sources.{sheet_told};

use model::Dart;
use passing::{far_count, has_place, leaving, pass};
use pixels::counts_fail;
use stores::Source;
use symbols::{Refusal, Road};

mod inside;
mod passing;
mod pixels;

pub use inside::drawing_at;

// The dart that leaves the entered pixel through the same crossing.
pub fn opposite<S: Source>(source: &S, dart: Dart) -> Result<Dart, Refusal>
    ensures { result ≡ opposite (sheet_told (S.told source.now)) dart }
{
    let left = leaving(source, dart)?;
    Ok(pass(source, &left)?.dart)
}

// The dart that leaves the entered pixel by the crossing before the entered one in its group.
pub fn next<S: Source>(source: &S, dart: Dart) -> Result<Dart, Refusal>
    ensures { result ≡ next (sheet_told (S.told source.now)) dart }
{
    let left = leaving(source, dart)?;
    Ok(pass(source, &left)?.turn_back())
}

// The dart whose next this one is.
pub fn previous<S: Source>(source: &S, dart: Dart) -> Result<Dart, Refusal>
    ensures { result ≡ previous (sheet_told (S.told source.now)) dart }
{
    let mut left = leaving(source, dart)?;
    left.dart = left.turn_on();
    Ok(pass(source, &left)?.dart)
}

// Whether the sheet has a dart.
pub fn is_dart<S: Source>(source: &S, dart: Dart) -> bool
    ensures { result ≡ is_dart (sheet_told (S.told source.now)) dart }
{
    drawing_at(source, dart.pixel).is_some_and(|drawing| has_place(&drawing, dart))
}

// Whether a road fails, if there is such a pixel.
pub fn road_fails<S: Source>(source: &S, pixel: u32, road: Road) -> Option<bool>
    ensures { result ≡ (if nat_lt pixel (pixels (sheet_told (S.told source.now))) then Some (fails (sheet_told (S.told source.now)) pixel road) else None) }
{
    let drawing = drawing_at(source, pixel)?;
    Some(counts_fail(drawing.count_on(road), far_count(source, pixel, road)))
}

// Whether a dart leaves a group that has a vertex; refused where there is no such dart.
pub fn leaves_vertex<S: Source>(source: &S, dart: Dart) -> Result<bool, Refusal>
    ensures { result ≡ (if is_dart (sheet_told (S.told source.now)) dart then Ok (leaves_vertex (sheet_told (S.told source.now)) dart) else Err NoDart) }
{
    Ok(leaving(source, dart)?.has_vertex())
}
