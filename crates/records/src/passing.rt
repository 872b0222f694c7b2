// The words of a record in the order of their pixels.
ghost use Rattle.std.specs.Prelude.{◌≡◌, ℕ, ◌+◌, ◌-◌, ◌*◌, ◌^◌, ◌<◌, ◌≤◌, drop, Some};
ghost use Rattle.std.specs.Iterator.{YieldsFirstBy, item_count};
ghost use Rattle.rules.specs.Words.{lawful};
ghost use Rattle.codec.specs.Bits.{bits_of};
ghost use Rattle.codec.specs.Reading.{guard};
ghost use Rattle.words.specs.Held.{symbols_of};
ghost use Rattle.records.specs.Rows.{runs_left};
ghost use Rattle.records.specs.Behind.{word_behind};
ghost use Rattle.records.specs.Told.{or_empty_word};
ghost use Rattle.records.specs.Ahead.{word_ahead, SameBehind};
ghost use Rattle.records.specs.Left.{words_left};

use crate::body::read_word;
use crate::order::{Place, Words, entered};
use crate::side_of;
use symbols::Symbol;
use words::Word;

// A word that was passed, and the index of the first symbol behind it.
#[derive(Clone, Copy)]
struct Passed {
    word: Word,
    from: u32,
}

// The word of symbols; `++++` where they are not lawful.
fn lawful_or_blank(symbols: &[Symbol]) -> Word
    ensures { symbols_of result ≡ or_empty_word (guard (lawful symbols.now) (Some symbols.now)) }
{
    Word::from_symbols(symbols).unwrap_or(Word::blank())
}

// Reads the word that begins at an index; `++++` in place of one that is wanting or not lawful.
fn pass_word(symbols: &[u8], from: u32) -> Passed
    requires { from + 64 < 2 ^ 32 }
    ensures word { symbols_of result.word ≡ or_empty_word (word_behind 0 (drop (3 * from) (bits_of symbols.now))) }
    ensures behind { SameBehind (drop (3 * from) (bits_of symbols.now)) (drop (3 * result.from) (bits_of symbols.now)) }
    ensures few { result.from ≤ from + 64 }
{
    match read_word(symbols, from) {
        Some(word) => Passed {
            word: lawful_or_blank(word.as_slice()),
            from: from + word.len() as u32,
        },
        None => Passed {
            word: Word::blank(),
            from,
        },
    }
}

// Passes the word of the present pixel.
fn pass_pixel(symbols: &[u8], place: Place<'_>, end: u16) -> Passed
    requires few { place.from + 64 < 2 ^ 32 }
    requires behind { place.pixel < place.low }
    ensures word { symbols_of result.word ≡ word_ahead end place.entry.pixel place.entry.inside place.entry.low (runs_left place.entry.runs) (drop (3 * place.entry.from) (bits_of symbols.now)) place.entry.pixel }
    ensures rest { (k : ℕ) → place.entry.pixel < k
        → word_ahead end (place.entry.pixel + 1) (place.entry.inside - 1) place.entry.low (runs_left place.entry.runs) (drop (3 * result.from) (bits_of symbols.now)) k
        ≡ word_ahead end place.entry.pixel place.entry.inside place.entry.low (runs_left place.entry.runs) (drop (3 * place.entry.from) (bits_of symbols.now)) k }
    ensures few { result.from ≤ place.entry.from + 64 }
{
    if place.inside == 0 {
        return Passed {
            word: Word::blank(),
            from: place.from,
        };
    }
    pass_word(symbols, place.from)
}

// The word of each pixel, from the present one to the last.
impl Iterator for Words<'_> {
    type Item = Word;

    ghost next_gives = { YieldsFirstBy symbols_of words_left };

    ghost remaining = { item_count words_left };

    fn next(&mut self) -> Option<Word> {
        let end = side_of(self.source.width) * side_of(self.source.height);
        if self.place.pixel >= end {
            return None;
        }
        let place = entered(self.place, end);
        let passed = pass_pixel(self.source.symbols, place, end);
        self.place = Place {
            pixel: place.pixel + 1,
            inside: place.inside.saturating_sub(1),
            from: passed.from,
            ..place
        };
        Some(passed.word)
    }
}
