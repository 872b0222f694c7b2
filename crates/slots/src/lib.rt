// The slot store: each pixel has a slot of bytes for its word.
#![tactic(auto)]

ghost use Rattle.std.specs.Prelude.{◌≡◌, ◌*◌, ◌<◌, ◌≤◌, vec_len, Decides, MatchBool, MatchResult};
ghost use Rattle.symbols.specs.declared.refusals.Refusal.TheVariants.{Opening};
ghost use Rattle.stores.specs.Sources.{Sides, fresh};
ghost use Rattle.slots.specs.Slots.{slots_told, Slots, OpensSlots, NeverFull};
ghost use Rattle.slots.specs.Laws.{slots_lawful};
ghost use Rattle.slots.specs.Places.{slots_keep};

use stores::{Size, Source, Store, Unopened, blank_out, copy_word, put_word};
use symbols::{Refusal, Symbol};
use words::Word;

// Memory of its own, cut into slots of one length, one for each pixel.
#[derive(Drop)]
pub struct SlotStore {
    memory: Vec<u8>,
    size: Size,
    slot: usize,
    ghost sides: { Sides size.width size.height },
    ghost sound: { Slots size.width size.height slot memory.items },
}

// Whether size, slot and memory suit a store.
fn suits(room: usize, size: Size, slot: usize) -> bool
    ensures { Decides result (OpensSlots room size.width size.height slot) }
{
    size.is_sheet() && (4..=64).contains(&slot) && size.pixels() * slot <= room
}

impl SlotStore {
    // Opens a store over memory that is handed in, with the empty word at every pixel. Refused where a side is outside 1
    // to 64, a slot outside 4 to 64, or the memory too short; then the memory comes back as it was.
    pub fn open(
        memory: Vec<u8>,
        width: u16,
        height: u16,
        slot: usize,
    ) -> Result<SlotStore, Unopened>
        ensures { MatchResult result
            (λ s. OpensSlots (vec_len memory) width height slot × (s.slot ≡ slot) × (slots_told s.size.width s.size.height s.slot s.memory.items ≡ fresh width height) × (vec_len s.memory ≡ vec_len memory))
            (λ e. (OpensSlots (vec_len memory) width height slot → ⊥) × (e.refusal ≡ Opening) × (e.memory ≡ memory)) }
    {
        let size = Size { width, height };
        if !suits(memory.len(), size, slot) {
            return Err(Unopened {
                refusal: Refusal::Opening,
                memory,
            });
        }
        let mut memory = memory;
        blank_out(&mut memory, size.pixels() * slot);
        Ok(SlotStore { memory, size, slot })
    }

    // Whether a word is no longer than a slot.
    fn fits(&self, len: usize) -> bool
        ensures { MatchBool result (len ≤ self.now.slot) (self.now.slot < len) }
    {
        len <= self.slot
    }

    // Takes the store apart and gives its memory back.
    pub fn into_memory(self) -> Vec<u8>
        ensures { result ≡ self.memory }
    {
        let SlotStore {
            memory,
            size: _,
            slot: _,
        } = self;
        memory
    }
}

impl Source for SlotStore {
    ghost told = { λ s. slots_told s.size.width s.size.height s.slot s.memory.items };

    ghost lawful = { λ s. slots_lawful s.size.width s.size.height s.slot s.memory.items s.sides s.sound };

    fn width(&self) -> u16 {
        self.size.width
    }

    fn height(&self) -> u16 {
        self.size.height
    }

    fn word(&self, pixel: u32, out: &mut [Symbol]) -> Result<usize, Refusal> {
        if !self.size.has(pixel) {
            return Err(Refusal::NoPixel);
        }
        let at = pixel as usize * self.slot;
        copy_word(&self.memory[at..at + self.slot], out)
    }
}

impl Store for SlotStore {
    ghost longest = { λ s. s.slot };

    ghost total = { λ s. s.size.width * s.size.height * s.slot };

    ghost keeps = { λ s. slots_keep s.size.width s.size.height s.slot s.memory.items s.sides s.sound };

    fn longest_word(&self) -> usize {
        self.slot
    }

    fn room(&self) -> usize {
        self.size.pixels() * self.slot
    }

    fn write(&mut self, pixel: u32, word: &[Symbol]) -> Result<(), Refusal> {
        if !self.size.has(pixel) {
            return Err(Refusal::NoPixel);
        }
        Word::from_symbols(word)?;
        if !self.fits(word.len()) {
            return Err(Refusal::OverLongest);
        }
        let at = pixel as usize * self.slot;
        let end = at + self.slot;
        let _ = put_word(word, &mut self.memory[at..end]);
        Ok(())
    }
}

// Slots have room for every word that fits one: no write is refused for want of room in all of them together.
pub fn slots_never_full()
    ensures { NeverFull }
{}
