// Sources on which no road fails.
ghost use Rattle.std.specs.Prelude.{◌≡◌, ◌<◌, None, Ok, Err, MatchResult};
ghost use Rattle.std.specs.List.{find};
ghost use Rattle.symbols.specs.Symbols.{roads};
ghost use Rattle.model.specs.Sheets.{pixels, fails};
ghost use Rattle.model.specs.Streets.{first_that, sides, side_fails, road_refused};
ghost use Rattle.model.specs.Statements.{NoRoadFails};
ghost use Rattle.stores.specs.Sources.{sheet_told};

use crate::pixels::pixels_of;
use maps::road_fails;
use stores::Source;
use symbols::{Refusal, Road};

// A source on which no road fails.
#[derive(Drop)]
pub struct Passable<'a, S: Source> {
    pub(crate) source: &'a S,
    ghost free: { NoRoadFails (sheet_told (S.told source.now)) },
}

// Whether a road of a pixel fails.
fn fails<S: Source>(source: &S, pixel: u32, road: Road) -> bool
    requires { pixel < pixels (sheet_told (S.told source.now)) }
    ensures { result ≡ fails (sheet_told (S.told source.now)) pixel road }
{
    road_fails(source, pixel, road).unwrap()
}

// The first failing road of a pixel.
fn failing<S: Source>(source: &S, pixel: u32) -> Option<Road>
    requires { pixel < pixels (sheet_told (S.told source.now)) }
    ensures { result ≡ find (fails (sheet_told (S.told source.now)) pixel) roads }
{
    Road::ALL
        .iter()
        .copied()
        .find(|road| fails(source, pixel, *road))
}

impl<'a, S: Source> Passable<'a, S> {
    // A source; refused at its first failing road, by pixel, then W, N, E, S.
    pub fn of(source: &'a S) -> Result<Passable<'a, S>, Refusal>
        ensures { MatchResult result
            (λ p. (p.source.now ≡ source.now) × (first_that (side_fails (sheet_told (S.told source.now))) (sides (sheet_told (S.told source.now))) ≡ None))
            (λ f. Err f ≡ road_refused (first_that (side_fails (sheet_told (S.told source.now))) (sides (sheet_told (S.told source.now)))) (Ok tt)) }
    {
        for pixel in 0..pixels_of(source) {
            if let Some(road) = failing(source, pixel) {
                return Err(Refusal::RoadFails { pixel, road });
            }
        }
        Ok(Passable { source })
    }
}
