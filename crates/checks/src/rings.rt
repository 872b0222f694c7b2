// The first dart on a ring.
ghost use Rattle.std.specs.Prelude.{◌≡◌};
ghost use Rattle.model.specs.Darts.{darts};
ghost use Rattle.model.specs.Streets.{on_ring, first_that, ring_refused};
ghost use Rattle.stores.specs.Sources.{sheet_told};

use darts::{Darts, Passable};
use model::Dart;
use stores::Source;
use symbols::Refusal;

// Refused at the first dart on a ring.
pub(crate) fn check_rings<S: Source>(free: &Passable<S>) -> Result<(), Refusal>
    ensures { result ≡ ring_refused (first_that (on_ring (sheet_told (S.told free.now.source.now))) (darts (sheet_told (S.told free.now.source.now)))) }
{
    for dart in Darts::of(free.source()) {
        if free.on_ring(dart).unwrap() {
            let Dart { pixel, road, place } = dart;
            return Err(Refusal::OnRing { pixel, road, place });
        }
    }
    Ok(())
}
