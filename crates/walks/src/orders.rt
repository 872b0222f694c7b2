// Darts compared.
ghost use Rattle.std.specs.Prelude.{◌≡◌};
ghost use Rattle.std.specs.Ordering.{ord_min, partial_le};
ghost use Rattle.model.specs.declared.darts.Dart.{Dart};
ghost use Rattle.model.specs.Darts.{same_dart, dart_le};
ghost use Rattle.model.specs.Streets.{lesser};

use model::Dart;

// The operators of darts compare by pixel, then road, then place.
pub fn darts_compare()
    ensures same { (a b : Dart) → ⟦<Dart as PartialEq>⟧.eq a b ≡ same_dart a b }
    ensures no_later { (a b : Dart) → partial_le ⟦<Dart as PartialOrd>⟧.partial_cmp a b ≡ dart_le a b }
    ensures lesser { (a b : Dart) → ord_min ⟦<Dart as Ord>⟧.cmp a b ≡ lesser a b }
{}
