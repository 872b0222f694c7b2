// Steps that change what a store keeps, and replays of them.
ghost use Rattle.std.specs.Prelude.{◌≡◌, map};
ghost use Rattle.plain.specs.Plain.{Call, answer, step, run};
ghost use Rattle.stores.specs.Sources.{plain_kept};

use crate::Store;
use symbols::Refusal;

// Something that may change what a store keeps, as a call changes the plain sheet.
pub trait Step {
    // the call that it stands for
    ghost call: { Self → Call };

    // Makes the call: what is answered, and what the store means then, is the plain sheet's.
    fn make<S: Store>(&self, store: &mut S) -> Result<(), Refusal>
        ensures answer { result ≡ answer (plain_kept S.told S.longest S.total store.old) (call self.now) }
        ensures after { plain_kept S.told S.longest S.total store.new ≡ step (plain_kept S.told S.longest S.total store.old) (call self.now) };
}

// Makes one step after another, and goes on where one is refused.
pub fn replay<S: Store, T: Step>(store: &mut S, steps: &[T])
    ensures { plain_kept S.told S.longest S.total store.new ≡ run (plain_kept S.told S.longest S.total store.old) (map T.call steps.now) }
{
    for step in steps {
        let _ = step.make(store);
    }
}
