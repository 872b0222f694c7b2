// The smallest dart of a dart's loop.
ghost use Rattle.std.specs.Prelude.{◌≡◌};
ghost use Rattle.model.specs.Streets.{lesser, root};
ghost use Rattle.stores.specs.Sources.{sheet_told};
ghost use Rattle.walks.specs.Statements.{Homeward, RootLeast};

use crate::Walk;
use model::Dart;
use stores::Source;
use symbols::Refusal;

// The smaller of two darts. In the loop below the order of darts is too much for the proof, so it is told here.
fn lesser(a: Dart, b: Dart) -> Dart
    ensures { result ≡ lesser a b }
{
    a.min(b)
}

// The smallest dart of a dart's loop, by going on until it is home; refused where there is no such dart, and where a road
// to be passed fails.
pub fn root<S: Source>(source: &S, dart: Dart) -> Result<Dart, Refusal>
    ensures { result ≡ root (sheet_told (S.told source.now)) dart }
{
    let mut low = dart;
    let mut walk = Walk::start(source, dart)?;
    loop {
        walk.step(source)?;
        if walk.is_home() {
            return Ok(low);
        }
        low = lesser(low, walk.at);
    }
}

// Going on from a dart, either a step is refused or it comes home, within as many steps as there are darts.
pub fn walks_come_home()
    ensures { Homeward }
{}

// Where no road fails, the root of a dart is the least dart of its loop.
pub fn roots_are_least()
    ensures { RootLeast }
{}
