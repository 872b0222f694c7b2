// What a word holds and means.
ghost use Rattle.std.specs.Prelude.{◌≡◌, ℕ, ◌≤◌, true, map, length, Some, Decides};
ghost use Rattle.symbols.specs.Refusals.{fill_answer, filled};
ghost use Rattle.symbols.specs.Symbols.{letter, text as written};
ghost use Rattle.rows.specs.Rows.{items};
ghost use Rattle.rules.specs.Words.{drawn};
ghost use Rattle.drawings.specs.Drawings.{crossings as drawing};
ghost use Rattle.words.specs.Held.{symbols_of, draws_same, draws_same_laws};

use crate::Word;
use drawings::Drawing;
use rows::Row;
use std::fmt;
use symbols::{Crossing, Refusal, Symbol, fill};

// The character of a symbol, as a byte.
fn letter_of(s: Symbol) -> u8
    ensures { result ≡ letter s }
{
    char::from(s) as u8
}

// The characters of symbols.
fn letters_of(symbols: &[Symbol]) -> Row<u8, 64>
    requires { length symbols.now ≤ 64 }
    ensures { items result ≡ written symbols.now }
{
    let mut letters = Row::new(0);
    for s in symbols {
        let _ = letters.push(letter_of(*s));
    }
    letters
}

impl Word {
    // The symbols of the word.
    pub fn symbols(&self) -> &[Symbol]
        ensures { result.now ≡ symbols_of self.now }
    {
        self.symbols.as_slice()
    }

    // How many symbols the word has.
    pub fn len(&self) -> usize
        ensures { result ≡ length (symbols_of self.now) }
    {
        self.symbols.len()
    }

    // What the word draws.
    pub fn drawing(&self) -> Drawing
        ensures { drawing result ≡ drawn (symbols_of self.now) }
    {
        Drawing::read(self.symbols()).unwrap()
    }

    // How many crossings the word has.
    pub fn crossings(&self) -> usize
        ensures { result ≡ length (drawn (symbols_of self.now)) }
    {
        self.drawing().len()
    }

    // The word's text, to the front of memory; tells its length. Where the memory is shorter, nothing is written.
    pub fn text(&self, out: &mut [u8]) -> Result<usize, Refusal>
        ensures answer { result ≡ fill_answer (written (symbols_of self.now)) out.old }
        ensures memory { out.new ≡ filled (written (symbols_of self.now)) out.old }
    {
        let letters = letters_of(self.symbols());
        fill(letters.as_slice(), out)
    }

    // Reads the word back: its crossings as records, to the front of memory; tells how many. A group's number is its first
    // crossing. Where the memory is shorter, nothing is written.
    pub fn read_back(&self, out: &mut [Crossing]) -> Result<usize, Refusal>
        ensures answer { result ≡ fill_answer (drawn (symbols_of self.now)) out.old }
        ensures memory { out.new ≡ filled (drawn (symbols_of self.now)) out.old }
    {
        fill(self.drawing().crossings(), out)
    }
}

// Words are equal where they draw the same. Lawful words do exactly where they have the same symbols.
impl PartialEq for Word {
    ghost eq = { draws_same };

    ghost laws = { draws_same_laws };

    fn eq(&self, other: &Word) -> bool
        ensures gives { result ≡ draws_same self.now other.now }
        ensures same { Decides result (drawn (symbols_of self.now) ≡ drawn (symbols_of other.now)) }
    {
        self.symbols() == other.symbols()
    }
}

// A word is printed as its text.
impl fmt::Display for Word {
    ghost output = { λ w. Some (written (symbols_of w)) };

    fn fmt<W: fmt::Write>(&self, f: &mut fmt::Formatter<W>) -> fmt::Result {
        for s in self.symbols() {
            write!(f, "{s}")?;
        }
        Ok(())
    }
}
