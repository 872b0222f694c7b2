// Words of pixels, as lists.
ghost use Rattle.std.specs.Prelude.{◌≡◌, ◌*◌, ◌<◌, ◌≤◌, MatchOption};
ghost use Rattle.rows.specs.Rows.{items};
ghost use Rattle.stores.specs.Sources.{empty_word, word_at};

use crate::Source;
use rows::Row;
use symbols::Symbol;

// The most symbols that a lawful word has.
const LONGEST: usize = 64;

// The word without a crossing.
const EMPTY: [Symbol; 4] = [Symbol::Corner; 4];

// The word without a crossing.
pub fn empty_word() -> &'static [Symbol]
    ensures { result.now ≡ empty_word }
{
    &EMPTY
}

// A pixel's word, if there is such a pixel.
pub fn word_of<S: Source>(source: &S, pixel: u32) -> Option<Row<Symbol, LONGEST>>
    ensures { MatchOption result
        ((S.told source.now).width * (S.told source.now).height ≤ pixel)
        (λ w. (pixel < (S.told source.now).width * (S.told source.now).height) × (items w ≡ word_at (S.told source.now) pixel)) }
{
    let mut held = [Symbol::Corner; LONGEST];
    let n = source.word(pixel, &mut held).ok()?;
    Row::front(held, n)
}
