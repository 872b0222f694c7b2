// Writing the word of a table.
ghost use Rattle.std.specs.Prelude.{◌≡◌, ℕ, ◌+◌, ◌≤◌, ◌++◌, length, replicate};
ghost use Rattle.symbols.specs.declared.symbols.Symbol.TheVariants.{Corner};
ghost use Rattle.rows.specs.Rows.{items};
ghost use Rattle.rules.specs.Tables.{Rising, symbol_at, canonical, word_of, build_word};
ghost use Rattle.words.specs.Held.{in_symbols};

use crate::groups::{first_records, goes_on, last_records};
use crate::judging::judge;
use rows::Row;
use symbols::{Crossing, Refusal, Symbol};
use words::Word;

// The symbol of a crossing: has its group a vertex, is it the first of its group, does another of its group follow.
fn symbol_of(vertex: bool, first: bool, more: bool) -> Symbol
    ensures { result ≡ symbol_at vertex first more }
{
    match (vertex, first, more) {
        (true, true, true) => Symbol::JunctionOpen,
        (true, true, false) => Symbol::DeadEnd,
        (true, false, true) => Symbol::Branch,
        (true, false, false) => Symbol::JunctionClose,
        (false, true, true) => Symbol::SplitOpen,
        (false, true, false) => Symbol::DeadEnd,
        (false, false, true) => Symbol::Branch,
        (false, false, false) => Symbol::SplitClose,
    }
}

// Puts n corners behind a word.
fn push_corners(word: &mut Row<Symbol, 64>, n: u8)
    requires { length (items word.old) + n ≤ 64 }
    ensures { items word.new ≡ items word.old ++ replicate n Corner }
{
    for _ in 0..n {
        let _ = word.push(Symbol::Corner);
    }
}

// The word of a table's drawing.
fn word_of(table: &[Crossing]) -> Row<Symbol, 64>
    requires { (length table.now ≤ 60) × (Rising table.now) }
    ensures { items result ≡ word_of (canonical table.now) }
{
    let firsts = first_records(table);
    let firsts = &firsts[..table.len()];
    let lasts = last_records(firsts);
    let mut word = Row::over([Symbol::Corner; 64]);
    let mut road: u8 = 0;
    for (k, c) in table.iter().enumerate() {
        push_corners(&mut word, c.road - road);
        let first = usize::from(firsts[k]) == k;
        let _ = word.push(symbol_of(c.vertex, first, goes_on(firsts, &lasts, k)));
        road = c.road;
    }
    push_corners(&mut word, 4 - road);
    word
}

// The word of the drawing that a table means, or the first rule that the table breaks.
#[tactic(auto, using(crate::proofs::Faults::refused, crate::proofs::Faults::built))]
pub fn build(table: &[Crossing]) -> Result<Word, Refusal>
    ensures { in_symbols result ≡ build_word table.now }
{
    judge(table)?;
    Word::from_symbols(word_of(table).as_slice())
}
