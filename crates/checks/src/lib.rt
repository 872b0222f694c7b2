// The check and the counts of any source.
#![tactic(auto)]

ghost use Rattle.std.specs.Prelude.{◌≡◌, true, Ok, Err, Decides, MatchResult};
ghost use Rattle.model.specs.Darts.{is_dart, darts};
ghost use Rattle.model.specs.Streets.{on_ring, first_that, ring_refused, check, count};
ghost use Rattle.stores.specs.Sources.{sheet_told};
ghost use Rattle.checks.specs.Counting.{in_numbers};
ghost use Rattle.checks.specs.Tallies.{reaches, reached, as_many};

use darts::Passable;
use model::Dart;
use numbers::{loops, streets, vertices};
use rings::check_rings;
use stores::Source;
use symbols::Refusal;
use totals::total;

mod counts;
mod numbers;
mod rings;
mod totals;

pub use counts::Counts;

// How many darts the sidewalk has that a dart begins; none where it begins none.
fn reached_from<S: Source>(free: &Passable<S>, dart: Dart) -> u32
    requires { is_dart (sheet_told (S.told free.now.source.now)) dart ≡ true }
    ensures { result ≡ reaches (sheet_told (S.told free.now.source.now)) dart }
{
    free.sidewalk_len(dart).unwrap_or(0)
}

// Whether the sidewalks reach as many darts as there are.
fn all_reached<S: Source>(free: &Passable<S>) -> bool
    ensures { Decides result (reached (sheet_told (S.told free.now.source.now)) ≡ as_many (sheet_told (S.told free.now.source.now))) }
{
    total(free, |dart| reached_from(free, dart)) == total(free, |_| 1)
}

// Refused at the first dart on a ring. Where there is none, each dart is walked over once.
fn check_darts<S: Source>(free: &Passable<S>) -> Result<(), Refusal>
    ensures { result ≡ ring_refused (first_that (on_ring (sheet_told (S.told free.now.source.now))) (darts (sheet_told (S.told free.now.source.now)))) }
{
    if all_reached(free) {
        return Ok(());
    }
    check_rings(free)
}

// A source that passes the check: every road has its crossings on both sides and every dart lies on a sidewalk. Refused at
// the first failing road, then at the first dart on a ring.
pub fn checked<S: Source>(source: &S) -> Result<Passable<S>, Refusal>
    ensures { MatchResult result
        (λ p. (p.source.now ≡ source.now) × (check (sheet_told (S.told source.now)) ≡ Ok tt))
        (λ f. check (sheet_told (S.told source.now)) ≡ Err f) }
{
    let free = Passable::of(source)?;
    check_darts(&free)?;
    Ok(free)
}

// Whether a source passes the check; refused as above.
pub fn check<S: Source>(source: &S) -> Result<(), Refusal>
    ensures { result ≡ check (sheet_told (S.told source.now)) }
{
    checked(source)?;
    Ok(())
}

// How many vertices, streets and loops there are; refused as the check.
pub fn count<S: Source>(source: &S) -> Result<Counts, Refusal>
    ensures { in_numbers result ≡ count (sheet_told (S.told source.now)) }
{
    let free = checked(source)?;
    Ok(Counts {
        vertices: vertices(source),
        streets: streets(&free),
        loops: loops(&free),
    })
}
