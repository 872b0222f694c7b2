// Records read in place: a source that answers straight from a record's bytes.
#![tactic(auto)]

ghost use Rattle.std.specs.Prelude.{◌≡◌, ◌*◌, ◌^◌, ◌<◌, ◌≤◌, true, length, take, Some, None, MatchOption, MatchResult};
ghost use Rattle.symbols.specs.declared.refusals.Refusal.TheVariants.{BadRecord};
ghost use Rattle.rows.specs.Rows.{items};
ghost use Rattle.codec.specs.Bits.{bits_of};
ghost use Rattle.codec.specs.Records.{side, sheet_of};
ghost use Rattle.codec.specs.Reading.{and_then};
ghost use Rattle.stores.specs.Sources.{sheet_told};
ghost use Rattle.records.specs.Stretches.{run_list, spot};
ghost use Rattle.records.specs.Behind.{word_behind};
ghost use Rattle.records.specs.Told.{side_or_one, record_told, record_lawful};
ghost use Rattle.records.specs.Header.{behind_header};
ghost use Rattle.records.specs.Source.{source_told};
ghost use Rattle.records.specs.Left.{words_left};

use body::{has_words, read_behind};
use order::first_words;
use rows::Row;
use runs::{count_pixels, spot_of};
use stores::{Size, Source, empty_word, is_side};
use symbols::{Refusal, Symbol, fill};

mod body;
mod order;
mod packed;
mod passing;
mod runs;

pub use order::Words;

// The header of a record of edition 1, and the bytes behind it.
#[derive(Clone, Copy)]
struct Header<'a> {
    size: Size,
    runs: usize,
    rest: &'a [u8],
}

// A record of a valid format, in its parts.
#[derive(Clone, Copy)]
pub struct RecordSource<'a> {
    width: u16,
    height: u16,
    runs: &'a [u8],
    symbols: &'a [u8],
}

// A side; one where it is no side.
fn side_of(n: u16) -> u16
    ensures is { result ≡ side_or_one n }
    ensures few { result ≤ 64 }
{
    if is_side(n) { n } else { 1 }
}

// Takes the header apart; none where the edition or a side is wrong, or a byte is wanting.
fn split_header(bytes: &[u8]) -> Option<Header<'_>>
    ensures { MatchOption result (sheet_of bytes.now ≡ None)
        (λ h. (sheet_of bytes.now ≡ behind_header h.size.width h.size.height h.runs h.rest.now) × (side h.size.width ≡ true) × (side h.size.height ≡ true) × (h.runs < 2 ^ 16)) }
{
    let [1, width, height, hi, lo, rest @ ..] = bytes else {
        return None;
    };
    let size = Size {
        width: u16::from(*width),
        height: u16::from(*height),
    };
    if !size.is_sheet() {
        return None;
    }
    Some(Header {
        size,
        runs: usize::from(*hi) * 256 + usize::from(*lo),
        rest,
    })
}

// Takes a record apart; none where it breaks a rule of the format.
fn split_record(bytes: &[u8]) -> Option<RecordSource<'_>>
    ensures { MatchOption result (sheet_of bytes.now ≡ None) (λ s. sheet_of bytes.now ≡ Some (sheet_told (record_told s.width s.height s.runs.now s.symbols.now))) }
{
    let header = split_header(bytes)?;
    let Size { width, height } = header.size;
    let (runs, symbols) = header.rest.split_at_checked(4 * header.runs)?;
    let words = count_pixels(runs, width * height)?;
    if !has_words(symbols, words) {
        return None;
    }
    Some(RecordSource {
        width,
        height,
        runs,
        symbols,
    })
}

impl<'a> RecordSource<'a> {
    // Opens a source over a record's bytes: refused where they break any rule of the format.
    pub fn open(bytes: &'a [u8]) -> Result<RecordSource<'a>, Refusal>
        ensures { MatchResult result
            (λ s. sheet_of bytes.now ≡ Some (sheet_told (record_told s.width s.height s.runs.now s.symbols.now)))
            (λ e. (e ≡ BadRecord) × (sheet_of bytes.now ≡ None)) }
    {
        split_record(bytes).ok_or(Refusal::BadRecord)
    }

    // The words in the order of their pixels, from the first one on.
    pub fn words(&self) -> Words<'a>
        ensures words { words_left result ≡ (source_told self.now).words }
        ensures source { result.source ≡ self.now }
        ensures pixel { result.place.pixel ≡ 0 }
    {
        first_words(*self)
    }
}

// The word of a pixel that lies in a run.
fn fetch(runs: &[u8], symbols: &[u8], end: u16, pixel: u32) -> Option<Row<Symbol, 64>>
    ensures { MatchOption result
        (and_then (spot 0 end (run_list runs.now) pixel) (λ n. word_behind n (bits_of symbols.now)) ≡ None)
        (λ w. and_then (spot 0 end (run_list runs.now) pixel) (λ n. word_behind n (bits_of symbols.now)) ≡ Some (items w)) }
{
    let before = spot_of(runs, end, pixel)?;
    read_behind(symbols, before)
}

impl Source for RecordSource<'_> {
    ghost told = { λ s. record_told s.width s.height s.runs.now s.symbols.now };

    ghost lawful = { λ s. record_lawful s.width s.height s.runs.now s.symbols.now };

    fn width(&self) -> u16 {
        side_of(self.width)
    }

    fn height(&self) -> u16 {
        side_of(self.height)
    }

    fn word(&self, pixel: u32, out: &mut [Symbol]) -> Result<usize, Refusal> {
        let size = self.size();
        if !size.has(pixel) {
            return Err(Refusal::NoPixel);
        }
        match fetch(self.runs, self.symbols, size.width * size.height, pixel) {
            Some(word) => fill(word.as_slice(), out),
            None => fill(empty_word(), out),
        }
    }
}
