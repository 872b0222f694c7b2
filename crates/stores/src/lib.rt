// What keeps the words of a sheet: sources that are asked, and stores that are written too.
#![tactic(auto)]

ghost use Rattle.std.specs.Prelude.{◌≡◌, ℕ};
ghost use Rattle.plain.specs.Plain.{Keeps, answer, step, write as written};
ghost use Rattle.stores.specs.Sources.{Told, LawfulTold, word_answer, word_memory, plain_kept, ToldSheetly};

use symbols::{Refusal, Symbol};

mod bytes;
mod pixels;
mod steps;
mod words;

pub use bytes::{blank_out, copy_word, front_len, put_word};
pub use pixels::{Size, is_side};
pub use steps::{Step, replay};
pub use words::{empty_word, word_of};

// An opening that was refused hands the memory back.
#[derive(Drop)]
pub struct Unopened {
    pub refusal: Refusal,
    pub memory: Vec<u8>,
}

// A size and one lawful word for each pixel. A question alters nothing.
pub trait Source {
    // the size and the words
    ghost told: { Self → Told };

    // the sides are 1 to 64, there is one word for each pixel, and each is lawful
    ghost lawful: { (s : Self) → LawfulTold (told s) };

    fn width(&self) -> u16
        ensures { result ≡ (told self.now).width };

    fn height(&self) -> u16
        ensures { result ≡ (told self.now).height };

    // Both sides.
    fn size(&self) -> Size
        ensures width { result.width ≡ (told self.now).width }
        ensures height { result.height ≡ (told self.now).height }
    {
        Size {
            width: self.width(),
            height: self.height(),
        }
    }

    // Copies a pixel's word to the front of memory and tells its length. Refused where there is no such pixel, then where
    // the memory is shorter than the word; then nothing is written.
    fn word(&self, pixel: u32, out: &mut [Symbol]) -> Result<usize, Refusal>
        ensures answer { result ≡ word_answer (told self.now) pixel out.old }
        ensures memory { out.new ≡ word_memory (told self.now) pixel out.old };
}

// A source whose words can be written. It tells two fixed numbers, and its words keep to both.
pub trait Store: Source {
    // the most symbols that one word may have
    ghost longest: { Self → ℕ };

    // the most symbols that all words may have
    ghost total: { Self → ℕ };

    fn longest_word(&self) -> usize
        ensures { result ≡ longest self.now };

    fn room(&self) -> usize
        ensures { result ≡ total self.now };

    // Gives a pixel a word: what is answered, and what the store means then, is the plain sheet's.
    fn write(&mut self, pixel: u32, word: &[Symbol]) -> Result<(), Refusal>
        ensures answer { result ≡ answer (plain_kept Self.told longest total self.old) (written pixel word.now) }
        ensures after { plain_kept Self.told longest total self.new ≡ step (plain_kept Self.told longest total self.old) (written pixel word.now) };

    ghost keeps: { (s : Self) → Keeps (plain_kept Self.told longest total s) };
}

// The sheet of a source: its words draw one.
pub fn told_is_sheet()
    ensures { ToldSheetly }
{}
