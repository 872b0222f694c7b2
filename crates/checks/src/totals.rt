// Sums over all darts.
ghost use Rattle.std.specs.Prelude.{◌≡◌, ℕ, true, sum_by};
ghost use Rattle.model.specs.declared.darts.Dart.{Dart};
ghost use Rattle.model.specs.Darts.{is_dart, darts};
ghost use Rattle.stores.specs.Sources.{sheet_told};
ghost use Rattle.checks.specs.Tallies.{Computes};

use darts::{Darts, Passable};
use model::Dart;
use stores::Source;

// What all darts add, by a function of one: the sum of what it computes.
pub(crate) fn total<S: Source, F: Fn(Dart) -> u32>(free: &Passable<S>, amount: F) -> u64
    requires { (d : Dart) → is_dart (sheet_told (S.told free.now.source.now)) d ≡ true → F.pre amount d }
    ensures { (f : Dart → ℕ) → Computes (sheet_told (S.told free.now.source.now)) (F.post amount) f → result ≡ sum_by f (darts (sheet_told (S.told free.now.source.now))) }
{
    let mut sum: u64 = 0;
    for dart in Darts::of(free.source()) {
        sum += u64::from(amount(dart));
    }
    sum
}
