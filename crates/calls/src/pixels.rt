// Calls on one pixel.
ghost use Rattle.std.specs.Prelude.{◌≡◌};
ghost use Rattle.plain.specs.Plain.{answer, step, answered, outcome, left_by, draw as drawing, drawn_word, put as putting, write as writing, build as building, clear as clearing};
ghost use Rattle.rules.specs.Tables.{build_word};
ghost use Rattle.stores.specs.Sources.{empty_word, plain_kept};
ghost use Rattle.words.specs.Held.{in_symbols};

use stores::{Source, Store, empty_word};
use symbols::{Crossing, Refusal};
use words::Word;

// Gives a pixel a word, or tells why there is none. Refused where there is no such pixel, then where there is no word, then
// where the word is over the longest or all words are over the total; then nothing changes.
fn draw<S: Store>(store: &mut S, pixel: u32, word: Result<Word, Refusal>) -> Result<(), Refusal>
    ensures answer { result ≡ answered (outcome (plain_kept S.told S.longest S.total store.old) (drawing pixel (drawn_word (in_symbols word)))) }
    ensures after { plain_kept S.told S.longest S.total store.new ≡ left_by (plain_kept S.told S.longest S.total store.old) (outcome (plain_kept S.told S.longest S.total store.old) (drawing pixel (drawn_word (in_symbols word)))) }
{
    if !store.size().has(pixel) {
        return Err(Refusal::NoPixel);
    }
    let word = word?;
    store.write(pixel, word.symbols())
}

// Gives a pixel the word of a text.
pub fn put<S: Store>(store: &mut S, pixel: u32, text: &str) -> Result<(), Refusal>
    ensures answer { result ≡ answer (plain_kept S.told S.longest S.total store.old) (putting pixel text.now) }
    ensures after { plain_kept S.told S.longest S.total store.new ≡ step (plain_kept S.told S.longest S.total store.old) (putting pixel text.now) }
{
    draw(store, pixel, Word::read(text))
}

// Gives a pixel the word that is built from a table.
fn draw_table<S: Store>(store: &mut S, pixel: u32, table: &[Crossing]) -> Result<(), Refusal>
    ensures answer { result ≡ answered (outcome (plain_kept S.told S.longest S.total store.old) (drawing pixel (drawn_word (build_word table.now)))) }
    ensures after { plain_kept S.told S.longest S.total store.new ≡ left_by (plain_kept S.told S.longest S.total store.old) (outcome (plain_kept S.told S.longest S.total store.old) (drawing pixel (drawn_word (build_word table.now)))) }
{
    draw(store, pixel, tables::build(table))
}

// Gives a pixel the word of the drawing that a table means.
pub fn build<S: Store>(store: &mut S, pixel: u32, table: &[Crossing]) -> Result<(), Refusal>
    ensures answer { result ≡ answer (plain_kept S.told S.longest S.total store.old) (building pixel table.now) }
    ensures after { plain_kept S.told S.longest S.total store.new ≡ step (plain_kept S.told S.longest S.total store.old) (building pixel table.now) }
{
    draw_table(store, pixel, table)
}

// Writes the word `++++`.
fn write_empty<S: Store>(store: &mut S, pixel: u32) -> Result<(), Refusal>
    ensures answer { result ≡ answer (plain_kept S.told S.longest S.total store.old) (writing pixel empty_word) }
    ensures after { plain_kept S.told S.longest S.total store.new ≡ step (plain_kept S.told S.longest S.total store.old) (writing pixel empty_word) }
{
    store.write(pixel, empty_word())
}

// Gives a pixel the word `++++`. It always fits.
pub fn clear<S: Store>(store: &mut S, pixel: u32) -> Result<(), Refusal>
    ensures answer { result ≡ answer (plain_kept S.told S.longest S.total store.old) (clearing pixel) }
    ensures after { plain_kept S.told S.longest S.total store.new ≡ step (plain_kept S.told S.longest S.total store.old) (clearing pixel) }
{
    write_empty(store, pixel)
}
