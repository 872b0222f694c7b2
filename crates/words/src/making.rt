// Making a word of symbols and of text.
ghost use Rattle.std.specs.Prelude.{◌≡◌, ℕ, ◌≤◌, length, replicate, Some, Err, MatchOption};
ghost use Rattle.symbols.specs.declared.refusals.Refusal.TheVariants.{NoWord};
ghost use Rattle.symbols.specs.declared.symbols.Symbol.TheVariants.{Corner};
ghost use Rattle.symbols.specs.Symbols.{spelt};
ghost use Rattle.rows.specs.Rows.{items};
ghost use Rattle.rules.specs.Words.{judged, read_word};
ghost use Rattle.words.specs.Held.{symbols_of, in_symbols};

use crate::Word;
use drawings::Drawing;
use rows::Row;
use symbols::{Refusal, Symbol};

// The symbols that a text spells, if there are at most 64 and each byte is the character of one. A longer text is refused
// before it is looked at.
#[tactic(auto, using(crate::proofs::Spelling::too_long))]
fn spell(text: &[u8]) -> Option<Row<Symbol, 64>>
    ensures { MatchOption result (read_word text.now ≡ Err NoWord) (λ r. spelt text.now ≡ Some (items r)) }
{
    if text.len() > 64 {
        return None;
    }
    let mut symbols = Row::over([Symbol::Corner; 64]);
    for b in text {
        let symbol = Symbol::try_from(char::from(*b)).ok()?;
        symbols.push(symbol)?;
    }
    Some(symbols)
}

impl Word {
    // The word without a crossing: four corners. It is known to be lawful, so nothing is read.
    pub fn blank() -> Word
        ensures { symbols_of result ≡ replicate 4 Corner }
    {
        let symbols = Row::front([Symbol::Corner; 64], 4).unwrap();
        Word { symbols }
    }

    // The word of symbols: refused where they are not 4 to 64 with four corners and one last, then where they do not read through.
    pub fn from_symbols(symbols: &[Symbol]) -> Result<Word, Refusal>
        ensures { in_symbols result ≡ judged symbols.now }
    {
        let _ = Drawing::read(symbols)?;
        let symbols = Row::from_slice(symbols, Symbol::Corner).unwrap();
        Ok(Word { symbols })
    }

    // The word of a text of bytes. A symbol is one ASCII character, so a byte of any other character is no symbol.
    pub fn read_bytes(text: &[u8]) -> Result<Word, Refusal>
        ensures { in_symbols result ≡ read_word text.now }
    {
        let symbols = spell(text).ok_or(Refusal::NoWord)?;
        Word::from_symbols(symbols.as_slice())
    }

    // The word of a text: refused where it is not 4 to 64 known symbols with four corners and one last, then where these do not read through.
    pub fn read(text: &str) -> Result<Word, Refusal>
        ensures { in_symbols result ≡ read_word text.now }
    {
        Word::read_bytes(text.as_bytes())
    }
}
