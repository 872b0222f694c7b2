// Records of sources: a source's words as bytes, written into memory that is lent.
#![tactic(auto)]

ghost use Rattle.std.specs.Prelude.{◌≡◌, ◌+◌, ◌*◌, ◌/◌, ◌^◌, ◌<◌, ◌≤◌, length};
ghost use Rattle.symbols.specs.Refusals.{fill_answer, filled};
ghost use Rattle.codec.specs.Records.{bytes_of};
ghost use Rattle.stores.specs.Sources.{sheet_told};
ghost use Rattle.recorder.specs.Bytes.{put_bytes, heading};

use bytes::put_number;
use packing::packed_len;
use runs::{count_runs, write_runs};
use stores::{Size, Source};
use symbols::Refusal;
use words::{count_symbols, write_words};

mod bytes;
mod packing;
mod runs;
mod words;

// How many bytes stand before the runs.
const HEADER: usize = 5;

// Where the words begin in a record with so many runs.
fn words_at(runs: u16) -> usize
    ensures { result ≡ 5 + 4 * runs }
{
    HEADER + 4 * usize::from(runs)
}

// How long a record is with so many runs and symbols.
fn size_of_record(runs: u16, symbols: usize) -> usize
    requires { symbols ≤ 2 ^ 32 }
    ensures { result ≡ 5 + 4 * runs + (3 * symbols + 7) / 8 }
{
    words_at(runs) + packed_len(symbols)
}

// Writes what stands before the runs: the edition, the size and how many runs there are.
fn write_header(out: &mut [u8], size: Size, runs: u16)
    requires room { 5 ≤ length out.old }
    requires sides { (size.width < 256) × (size.height < 256) }
    ensures { out.new ≡ put_bytes out.old 0 (heading size.width size.height runs) }
{
    out[0] = 1;
    out[1] = size.width as u8;
    out[2] = size.height as u8;
    put_number(out, 3, runs);
}

// How long the record of a source is.
pub fn record_len<S: Source>(source: &S) -> usize
    ensures { result ≡ length (bytes_of (sheet_told (S.told source.now))) }
{
    size_of_record(count_runs(source), count_symbols(source))
}

// Writes the record of a source to the front of memory and tells its length. Where the memory is shorter, nothing is
// written.
pub fn write_record<S: Source>(source: &S, out: &mut [u8]) -> Result<usize, Refusal>
    ensures answer { result ≡ fill_answer (bytes_of (sheet_told (S.told source.now))) out.old }
    ensures memory { out.new ≡ filled (bytes_of (sheet_told (S.told source.now))) out.old }
{
    let runs = count_runs(source);
    let n = size_of_record(runs, count_symbols(source));
    if n > out.len() {
        return Err(Refusal::Short);
    }
    write_header(out, source.size(), runs);
    write_runs(source, out, HEADER);
    let at = words_at(runs);
    write_words(source, &mut out[at..]);
    Ok(n)
}
