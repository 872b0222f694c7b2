// Stores as they are opened and written, whatever keeps the words.
#![tactic(auto)]

ghost use Rattle.std.specs.Prelude.{◌≡◌, ℕ, List, Some, None, vec_len, Option, MatchResult};
ghost use Rattle.symbols.specs.declared.refusals.Refusal.TheVariants.{Opening};
ghost use Rattle.stores.specs.Sources.{plain_kept};
ghost use Rattle.openings.specs.Limits.{Limits, slot_limits, strip_limits};
ghost use Rattle.openings.specs.Replays.{call_of, script, OpenedWithin, Replayed};

use slots::SlotStore;
use stores::{Source, Step, Store, Unopened, replay};
use strips::StripStore;
use symbols::{Refusal, Symbol};

// What can be opened as a store.
pub trait Opens: Sized + Drop {
    type Opened: Store + Drop;

    // the size, the longest and the total that the opening leads to, if it is accepted
    ghost limits: { Self → Option Limits };

    // the memory that is handed in
    ghost memory: { Self → List ℕ };

    // Opens the store, with the empty word at every pixel. Refused, the memory comes back as it was.
    fn open(self) -> Result<Self::Opened, Unopened>
        ensures { MatchResult result
            (λ s. OpenedWithin (limits self) (plain_kept Self.Opened.told Self.Opened.longest Self.Opened.total s))
            (λ e. (limits self ≡ None) × (e.refusal ≡ Opening) × (e.memory.items ≡ memory self)) };
}

// What a slot store is opened with.
#[derive(Drop)]
pub struct SlotOpening {
    pub memory: Vec<u8>,
    pub width: u16,
    pub height: u16,
    pub slot: usize,
}

impl Opens for SlotOpening {
    type Opened = SlotStore;

    ghost limits = { λ o. slot_limits (vec_len o.memory) o.width o.height o.slot };

    ghost memory = { λ o. o.memory.items };

    fn open(self) -> Result<SlotStore, Unopened> {
        let SlotOpening {
            memory,
            width,
            height,
            slot,
        } = self;
        SlotStore::open(memory, width, height, slot)
    }
}

// What a strip store is opened with.
#[derive(Drop)]
pub struct StripOpening {
    pub memory: Vec<u8>,
    pub width: u16,
    pub height: u16,
}

impl Opens for StripOpening {
    type Opened = StripStore;

    ghost limits = { λ o. strip_limits (vec_len o.memory) o.width o.height };

    ghost memory = { λ o. o.memory.items };

    fn open(self) -> Result<StripStore, Unopened> {
        let StripOpening {
            memory,
            width,
            height,
        } = self;
        StripStore::open(memory, width, height)
    }
}

// One write: a pixel and the word for it.
#[derive(Clone, Copy)]
pub struct Write<'a> {
    pub pixel: u32,
    pub word: &'a [Symbol],
}

impl Step for Write<'_> {
    ghost call = { call_of };

    fn make<S: Store>(&self, store: &mut S) -> Result<(), Refusal> {
        store.write(self.pixel, self.word)
    }
}

// Opens a store and makes the writes. Whatever the store, and whichever writes are refused, each pixel has the word that
// was accepted last there.
#[tactic(auto, using(crate::proofs::Runs::replayed))]
pub fn open_and_replay<O: Opens>(opening: O, writes: &[Write<'_>]) -> Result<O::Opened, Unopened>
    ensures { MatchResult result
        (λ s. Replayed (O.limits opening) (script writes.now) (O.Opened.told s) (O.Opened.longest s) (O.Opened.total s))
        (λ e. (O.limits opening ≡ None) × (e.refusal ≡ Opening) × (e.memory.items ≡ O.memory opening)) }
{
    let mut store = opening.open()?;
    replay(&mut store, writes);
    Ok(store)
}
