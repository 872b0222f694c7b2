// The words of a source that a record holds: all but `++++`.
ghost use Rattle.std.specs.Prelude.{◌≡◌, ◌+◌, ◌*◌, ◌^◌, ◌≤◌, false, [], map, length, MatchBool, MatchOption, ◌≢◌, slice_index_or};
ghost use Rattle.rules.specs.Words.{drawn};
ghost use Rattle.std.specs.List.{flat_map};
ghost use Rattle.codec.specs.Words.{symbol_bits, shown_symbols};
ghost use Rattle.recorder.specs.Packing.{put_bits, packed};
ghost use Rattle.rows.specs.Rows.{items};
ghost use Rattle.recorder.specs.Words.{Shown, shown_word, marks_told};

use crate::packing::push_word;
use rows::Row;
use stores::{Source, word_of};
use symbols::Symbol;

// Whether a lawful word of so many symbols is `++++`.
fn is_blank(len: usize) -> bool
    ensures { MatchBool result (len ≡ 4) (len ≢ 4) }
{
    len == 4
}

// A pixel's word, if a record has it; none where the word is `++++` or there is no such pixel.
fn shown_word<S: Source>(source: &S, pixel: u16) -> Option<Row<Symbol, 64>>
    ensures { MatchOption result
        (shown_word (S.told source.now) pixel ≡ [])
        (λ w. Shown (S.told source.now) pixel (items w)) }
{
    let word = word_of(source, u32::from(pixel))?;
    if is_blank(word.len()) {
        return None;
    }
    Some(word)
}

// How many symbols of a pixel's word a record has.
fn shown_len<S: Source>(source: &S, pixel: u16) -> usize
    ensures is { result ≡ length (shown_word (S.told source.now) pixel) }
    ensures most { result ≤ 64 }
{
    match shown_word(source, pixel) {
        Some(word) => word.len(),
        None => 0,
    }
}

// Whether a record has a pixel's word.
pub(crate) fn is_shown<S: Source>(source: &S, pixel: u16) -> bool
    ensures { result ≡ slice_index_or (marks_told (S.told source.now)) pixel false }
{
    shown_word(source, pixel).is_some()
}

// How many pixels a source has.
pub(crate) fn pixel_count<S: Source>(source: &S) -> u16
    ensures is { result ≡ length (S.told source.now).words }
    ensures most { result ≤ 4096 }
{
    source.size().pixels() as u16
}

// How many symbols the words of a record have.
pub(crate) fn count_symbols<S: Source>(source: &S) -> usize
    ensures is { result ≡ length (shown_symbols (map drawn (S.told source.now).words)) }
    ensures most { result ≤ 64 * 4096 }
{
    let mut n: usize = 0;
    for pixel in 0..pixel_count(source) {
        n += shown_len(source, pixel);
    }
    n
}

// Memory that is lent, and how many symbols are packed into its front.
#[derive(Drop)]
struct Packed<'m> {
    part: &'m mut [u8],
    symbols: usize,
}

impl Packed<'_> {
    // Puts a pixel's word behind the symbols, if a record has it.
    fn push_shown<S: Source>(&mut self, source: &S, pixel: u16)
        requires room { 3 * (self.old.symbols + length (shown_word (S.told source.now) pixel)) ≤ 8 * length self.old.part.now }
        requires few { self.old.symbols + length (shown_word (S.told source.now) pixel) ≤ 2 ^ 32 }
        ensures same_reference { self.new.part.ghost_name ≡ self.old.part.ghost_name }
        ensures len { length self.new.part.now ≡ length self.old.part.now }
        ensures is { self.new.symbols ≡ self.old.symbols + length (shown_word (S.told source.now) pixel) }
        ensures memory { self.new.part.now ≡ put_bits self.old.part.now (3 * self.old.symbols) (flat_map symbol_bits (shown_word (S.told source.now) pixel)) }
    {
        if let Some(word) = shown_word(source, pixel) {
            push_word(self.part, self.symbols, word.as_slice());
            self.symbols += word.len();
        }
    }
}

// Packs the words of a record into the front of memory.
pub(crate) fn write_words<S: Source>(source: &S, part: &mut [u8])
    requires { 3 * length (shown_symbols (map drawn (S.told source.now).words)) ≤ 8 * length part.old }
    ensures { part.new ≡ packed (flat_map symbol_bits (shown_symbols (map drawn (S.told source.now).words))) part.old }
{
    let mut packed = Packed { part, symbols: 0 };
    for pixel in 0..pixel_count(source) {
        packed.push_shown(source, pixel);
    }
}
