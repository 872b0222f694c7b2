// Lawful words: read and written as text, and what they hold and mean.
#![tactic(auto)]

ghost use Rattle.std.specs.Prelude.{◌≡◌, true};
ghost use Rattle.rows.specs.Rows.{items};
ghost use Rattle.rules.specs.Words.{lawful};

use rows::Row;
use symbols::Symbol;

mod making;
mod showing;

// A lawful word: 4 to 64 symbols that read through, four of them corners, one of these last.
#[derive(Clone, Copy)]
pub struct Word {
    symbols: Row<Symbol, 64>,
    ghost sound: { lawful (items symbols) ≡ true },
}
