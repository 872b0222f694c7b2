// The words of a record, one behind the other.
ghost use Rattle.std.specs.Prelude.{◌≡◌, ℕ, ◌-◌, ◌*◌, ◌^◌, ◌<◌, ◌≤◌, ◌&&◌, length, drop, Some, None, MatchOption};
ghost use Rattle.rows.specs.Rows.{items};
ghost use Rattle.rules.specs.Words.{lawful};
ghost use Rattle.codec.specs.Bits.{bits_of};
ghost use Rattle.codec.specs.Words.{cut, left as still};
ghost use Rattle.records.specs.Behind.{CutOff, in_run, any_word, skips, all_words, word_behind};

use crate::packed::{is_padded, symbol_at};
use rows::Row;
use symbols::Symbol;
use words::Word;

// How many corners are still to come behind a symbol.
fn corners_behind(symbol: Symbol, corners: u8) -> u8
    requires { 1 ≤ corners }
    ensures { result ≡ still symbol (corners - 1) }
{
    match symbol {
        Symbol::Corner => corners - 1,
        _ => corners,
    }
}

// Reads the word that begins at an index, up to its fourth corner. None where a symbol is wanting or the word has more
// than 64.
pub fn read_word(bytes: &[u8], from: u32) -> Option<Row<Symbol, 64>>
    ensures { MatchOption result (cut 64 4 (drop (3 * from) (bits_of bytes.now)) ≡ None) (λ w. CutOff bytes.now from (items w)) }
{
    let mut word = Row::over([Symbol::Corner; 64]);
    let mut corners: u8 = 4;
    while corners > 0 {
        let symbol = symbol_at(bytes, from as usize + word.len())?;
        word.push(symbol)?;
        corners = corners_behind(symbol, corners);
    }
    Some(word)
}

// Whether symbols are a lawful word.
fn is_lawful(word: &[Symbol]) -> bool
    ensures { result ≡ lawful word.now }
{
    Word::from_symbols(word).is_ok()
}

// Whether a word may stand in a run: it is lawful, and it is not `++++`.
fn may_stand(word: &[Symbol]) -> bool
    ensures { result ≡ in_run word.now }
{
    Word::from_symbols(word).is_ok_and(|word| word.crossings() != 0)
}

// Whether so many words that may stand in a run come one behind the other, and behind them only padding.
pub fn has_words(bytes: &[u8], words: u16) -> bool
    ensures { result ≡ all_words words (bits_of bytes.now) }
{
    let mut from: u32 = 0;
    for _word in 0..words {
        let Some(word) = read_word(bytes, from) else {
            return false;
        };
        if !may_stand(word.as_slice()) {
            return false;
        }
        from += word.len() as u32;
    }
    is_padded(bytes, from)
}

// The index behind so many words; none where one is wanting.
fn seek(bytes: &[u8], words: u16) -> Option<u32>
    ensures { MatchOption result (skips any_word words (bits_of bytes.now) ≡ None) (λ k. skips any_word words (bits_of bytes.now) ≡ Some (drop (3 * k) (bits_of bytes.now))) }
{
    let mut from: u32 = 0;
    for _word in 0..words {
        from += read_word(bytes, from)?.len() as u32;
    }
    Some(from)
}

// The word behind so many others; none where one is wanting or the word is not lawful.
pub fn read_behind(bytes: &[u8], words: u16) -> Option<Row<Symbol, 64>>
    ensures { MatchOption result (word_behind words (bits_of bytes.now) ≡ None) (λ w. word_behind words (bits_of bytes.now) ≡ Some (items w)) }
{
    let from = seek(bytes, words)?;
    let word = read_word(bytes, from)?;
    if !is_lawful(word.as_slice()) {
        return None;
    }
    Some(word)
}
