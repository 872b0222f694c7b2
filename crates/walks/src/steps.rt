// Steps of a walk.
ghost use Rattle.std.specs.Prelude.{◌≡◌, Ok};
ghost use Rattle.stores.specs.Sources.{sheet_told};
ghost use Rattle.walks.specs.Walks.{started, is_home, gone_on, step_answer, step_walk, steps_made, walk_after, raised, onward};

use crate::Walk;
use maps::{is_dart, next};
use model::Dart;
use stores::Source;
use symbols::Refusal;

impl Walk {
    // A walk at its start; refused where there is no such dart.
    pub fn start<S: Source>(source: &S, dart: Dart) -> Result<Walk, Refusal>
        ensures { result ≡ started (sheet_told (S.told source.now)) dart }
    {
        if !is_dart(source, dart) {
            return Err(Refusal::NoDart);
        }
        Ok(Walk {
            start: dart,
            at: dart,
            steps: 0,
        })
    }

    // Whether it is back at its start after a step.
    pub fn is_home(&self) -> bool
        ensures { result ≡ is_home self.now }
    {
        self.steps > 0 && self.at == self.start
    }

    // Goes on to a dart.
    fn go(&mut self, dart: Dart)
        ensures { self.new ≡ gone_on self.old dart }
    {
        self.at = dart;
        self.steps = self.steps.saturating_add(1);
    }

    // Goes on to next; refused where there is no such dart, then where the road to be passed fails, then where the walk is
    // already home.
    pub fn step<S: Source>(&mut self, source: &S) -> Result<(), Refusal>
        ensures answer { result ≡ step_answer (sheet_told (S.told source.now)) self.old }
        ensures after { self.new ≡ step_walk (sheet_told (S.told source.now)) self.old }
    {
        let dart = next(source, self.at)?;
        if self.is_home() {
            return Err(Refusal::Home);
        }
        self.go(dart);
        Ok(())
    }
}

// Makes up to n steps, until one is refused, and tells how many were made.
pub fn walk_on<S: Source>(source: &S, walk: &mut Walk, n: u32) -> u32
    ensures made { result ≡ steps_made (sheet_told (S.told source.now)) n walk.old }
    ensures after { walk.new ≡ walk_after (sheet_told (S.told source.now)) n walk.old }
    ensures onward { onward (sheet_told (S.told source.now)) result walk.old.at ≡ Ok walk.new.at }
    ensures counted { walk.new.steps ≡ raised result walk.old.steps }
    ensures started { walk.new.start ≡ walk.old.start }
{
    for made in 0..n {
        if walk.step(source).is_err() {
            return made;
        }
    }
    n
}
