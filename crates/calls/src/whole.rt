// A record for the whole sheet: its words replace all others.
ghost use Rattle.std.specs.Prelude.{◌≡◌, ℕ, ◌*◌, map, Some, Ok, nat_lt};
ghost use Rattle.rules.specs.Words.{drawn};
ghost use Rattle.plain.specs.Plain.{some_over, symbols_of, same_size, answered, outcome, replace, left_by, answer, step, load as loading};
ghost use Rattle.calls.specs.Fits.{Fits};
ghost use Rattle.stores.specs.Sources.{plain_kept, sheet_told};
ghost use Rattle.records.specs.Source.{source_told};
ghost use Rattle.calls.specs.Kept.{emptied};

use crate::pixels::clear;
use records::RecordSource;
use stores::{Source, Store};
use symbols::Refusal;

// What is counted of words: how many symbols the longest has, and how many all have.
#[derive(Clone, Copy)]
struct Measured {
    longest: usize,
    total: usize,
}

// How many pixels a sheet has.
fn pixel_count<S: Source>(source: &S) -> u32
    ensures { result ≡ (S.told source.now).width * (S.told source.now).height }
{
    u32::from(source.width()) * u32::from(source.height())
}

// Counts the words of a record.
fn measure(source: &RecordSource<'_>) -> Measured
    ensures longest { (n : ℕ) → some_over n (map drawn (source_told source.now).words) ≡ nat_lt n result.longest }
    ensures total { result.total ≡ symbols_of (map drawn (source_told source.now).words) }
{
    let mut longest: usize = 0;
    let mut total: usize = 0;
    for word in source.words() {
        let len = word.symbols().len();
        longest = longest.max(len);
        total += len;
    }
    Measured { longest, total }
}

// Whether a store and a record have one size.
fn has_size<S: Store>(store: &S, source: &RecordSource<'_>) -> bool
    ensures { result ≡ same_size (plain_kept S.told S.longest S.total store.now) (sheet_told (source_told source.now)) }
{
    source.size() == store.size()
}

// Whether the words of a record may replace those of a store. Only the new words count.
fn judge<S: Store>(store: &S, source: &RecordSource<'_>) -> Result<(), Refusal>
    ensures { result ≡ answered (outcome (plain_kept S.told S.longest S.total store.now) (replace (Some (sheet_told (source_told source.now))))) }
{
    if !has_size(store, source) {
        return Err(Refusal::Opening);
    }
    let measured = measure(source);
    if measured.longest > store.longest_word() {
        return Err(Refusal::OverLongest);
    }
    if measured.total > store.room() {
        return Err(Refusal::OverTotal);
    }
    Ok(())
}

// Empties every pixel.
fn empty_all<S: Store>(store: &mut S)
    ensures { plain_kept S.told S.longest S.total store.new ≡ emptied (plain_kept S.told S.longest S.total store.old) }
{
    for pixel in 0..pixel_count(store) {
        let _ = clear(store, pixel);
    }
}

// Writes the words of a record over an empty sheet. Each of them fits.
fn write_all<S: Store>(store: &mut S, source: &RecordSource<'_>)
    requires blank { plain_kept S.told S.longest S.total store.old ≡ emptied (plain_kept S.told S.longest S.total store.old) }
    requires fits { Fits (plain_kept S.told S.longest S.total store.old) (source_told source.now) }
    ensures { plain_kept S.told S.longest S.total store.new ≡ left_by (plain_kept S.told S.longest S.total store.old) (Ok (sheet_told (source_told source.now)).drawings) }
{
    for (pixel, word) in (0..pixel_count(store)).zip(source.words()) {
        let _ = store.write(pixel, word.symbols());
    }
}

// Replaces all words by those of a record.
fn copy_all<S: Store>(store: &mut S, source: &RecordSource<'_>)
    requires { Fits (plain_kept S.told S.longest S.total store.old) (source_told source.now) }
    ensures { plain_kept S.told S.longest S.total store.new ≡ left_by (plain_kept S.told S.longest S.total store.old) (Ok (sheet_told (source_told source.now)).drawings) }
{
    empty_all(store);
    write_all(store, source);
}

// Replaces all words by those of a record. Refused where the bytes are no record, then where it has another size, then
// where one of its words is over the longest or all are over the total; then nothing changes.
pub fn load<S: Store>(store: &mut S, bytes: &[u8]) -> Result<(), Refusal>
    ensures answer { result ≡ answer (plain_kept S.told S.longest S.total store.old) (loading bytes.now) }
    ensures after { plain_kept S.told S.longest S.total store.new ≡ step (plain_kept S.told S.longest S.total store.old) (loading bytes.now) }
{
    let source = RecordSource::open(bytes)?;
    judge(store, &source)?;
    copy_all(store, &source);
    Ok(())
}
