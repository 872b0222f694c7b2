// The strip store: words one behind the other, each symbol one byte. A word is found by counting corners; when its length
// changes, the words behind it move.
#![tactic(auto)]

ghost use Rattle.std.specs.Prelude.{◌≡◌, ◌+◌, ◌*◌, ◌<◌, ◌≤◌, length, drop, vec_len, Decides, MatchBool, MatchResult};
ghost use Rattle.std.proofs.Math.Seq.{paste};
ghost use Rattle.symbols.specs.declared.refusals.Refusal.TheVariants as refusals;
ghost use Rattle.rules.specs.Words.{judged};
ghost use Rattle.words.specs.Held.{in_symbols};
ghost use Rattle.plain.specs.Plain.{Opens};
ghost use Rattle.stores.specs.Sources.{fresh};
ghost use Rattle.stores.specs.Bytes.{encoded};
ghost use Rattle.strips.specs.Strips.{strip_words, lengths, replaced, Spotted, strip_told, Sides, EachLawful, strip_lawful, strip_all};
ghost use Rattle.std.proofs.Common.{arith};
ghost use Rattle.stores.proofs.Writes.{keeps_told};
ghost use Rattle.strips.specs.Cuts.{all_short, symbols_told, lengths_within};

use stores::{Size, Source, Store, Unopened, blank_out, copy_word, front_len, put_word};
use symbols::{Refusal, Symbol};
use words::Word;

// A sheet's words, one behind the other from the first byte on.
#[derive(Drop)]
pub struct StripStore {
    memory: Vec<u8>,
    size: Size,
    ghost sides: { Sides size.width size.height (vec_len memory) },
    ghost each: { EachLawful (size.width * size.height) memory.items },
}

// The most symbols that a word has.
const LONGEST: usize = 64;

// Where a word begins, how long it is, and how long the words behind it are.
#[derive(Clone, Copy)]
struct Spot {
    at: usize,
    old: usize,
    tail: usize,
}

// Whether a store of this size opens in that much memory.
fn opens(room: usize, size: Size) -> bool
    ensures { Decides result (Opens size.width size.height LONGEST room) }
{
    size.is_sheet() && 4 * size.pixels() <= room
}

// Where the word behind the first n words begins.
fn seek(memory: &[u8], n: usize) -> usize
    ensures is { result ≡ lengths (strip_words n memory.now) }
    ensures within { result ≤ length memory.now }
{
    let mut at = 0;
    for _word in 0..n {
        at += front_len(&memory[at..]);
    }
    at
}

impl Spot {
    // Finds a pixel's word among count words.
    fn find(memory: &[u8], count: usize, pixel: usize) -> Spot
        requires { pixel < count }
        ensures { Spotted memory.now count pixel result.at result.old result.tail }
    {
        let at = seek(memory, pixel);
        let old = front_len(&memory[at..]);
        let tail = seek(&memory[at + old..], count - pixel - 1);
        Spot { at, old, tail }
    }

    // Whether a word of that length goes where this one stands.
    fn has_room(self, room: usize, len: usize) -> bool
        requires { self.at + self.old + self.tail ≤ room }
        ensures { MatchBool result (self.at + len + self.tail ≤ room) (room < self.at + len + self.tail) }
    {
        len <= room - self.at - self.tail
    }
}

// The word of symbols, or why they are none.
fn lawful(symbols: &[Symbol]) -> Result<Word, Refusal>
    ensures { in_symbols result ≡ judged symbols.now }
{
    Word::from_symbols(symbols)
}

// Moves n bytes.
fn shift(part: &mut [u8], from: usize, to: usize, n: usize)
    requires source { from + n ≤ length part.old }
    requires target { to + n ≤ length part.old }
    ensures { part.new ≡ paste part.old to (drop from part.old) n }
{
    part.copy_within(from..from + n, to);
}

// Puts a word in the place of the first one, which is old bytes long; tail bytes behind it move.
fn replace(part: &mut [u8], old: usize, word: &[Symbol], tail: usize)
    requires before { old + tail ≤ length part.old }
    requires after { length word.now + tail ≤ length part.old }
    ensures { part.new ≡ replaced part.old old tail (encoded word.now) }
{
    shift(part, old, word.len(), tail);
    let _ = put_word(word, part);
}

impl StripStore {
    // Opens a store in memory of one's own: every word is `++++`. Refused where a side is outside 1 to 64 or there are under
    // four bytes for each pixel.
    pub fn open(memory: Vec<u8>, width: u16, height: u16) -> Result<StripStore, Unopened>
        ensures { MatchResult result
            (λ s. Opens width height 64 (vec_len memory) × (strip_told s.size.width s.size.height s.memory.items ≡ fresh width height) × (vec_len s.memory ≡ vec_len memory))
            (λ e. (e.refusal ≡ refusals.Opening) × (e.memory ≡ memory) × (Opens width height 64 (vec_len memory) → ⊥)) }
    {
        let size = Size { width, height };
        if !opens(memory.len(), size) {
            return Err(Unopened {
                refusal: Refusal::Opening,
                memory,
            });
        }
        let mut memory = memory;
        blank_out(&mut memory, 4 * size.pixels());
        Ok(StripStore { memory, size })
    }

    // Gives the memory back.
    pub fn into_memory(self) -> Vec<u8>
        ensures { result ≡ self.memory }
    {
        let StripStore { memory, size: _ } = self;
        memory
    }
}

impl Source for StripStore {
    ghost told = { λ s. strip_told s.size.width s.size.height s.memory.items };

    ghost lawful = { λ s. strip_lawful s.size.width s.size.height (vec_len s.memory) s.memory.items s.sides s.each };

    fn width(&self) -> u16 {
        self.size.width
    }

    fn height(&self) -> u16 {
        self.size.height
    }

    fn word(&self, pixel: u32, out: &mut [Symbol]) -> Result<usize, Refusal> {
        if !self.size.has(pixel) {
            return Err(Refusal::NoPixel);
        }
        let at = seek(&self.memory, pixel as usize);
        copy_word(&self.memory[at..], out)
    }
}

impl Store for StripStore {
    ghost longest = { λ s. 64 };

    ghost total = { λ s. vec_len s.memory };

    ghost keeps = { λ s.
        let n = s.size.width * s.size.height in
        let bs = s.memory.items in
        let all = strip_all n bs s.each in
        keeps_told (strip_told s.size.width s.size.height bs) 64 s.memory.len
        (strip_lawful s.size.width s.size.height s.memory.len bs s.sides s.each)
        (omega arith)
        s.sides.4
        (all_short (strip_words n bs) all)
        (omega (arith, symbols_told (strip_words n bs) all, lengths_within n bs, s.memory.ok.0)) };

    fn longest_word(&self) -> usize {
        LONGEST
    }

    fn room(&self) -> usize {
        self.memory.len()
    }

    fn write(&mut self, pixel: u32, word: &[Symbol]) -> Result<(), Refusal> {
        if !self.size.has(pixel) {
            return Err(Refusal::NoPixel);
        }
        lawful(word)?;
        let spot = Spot::find(&self.memory, self.size.pixels(), pixel as usize);
        if !spot.has_room(self.memory.len(), word.len()) {
            return Err(Refusal::OverTotal);
        }
        let Spot { at, old, tail } = spot;
        replace(&mut self.memory[at..], old, word, tail);
        Ok(())
    }
}
