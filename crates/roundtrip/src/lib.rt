// Records written and read again.
#![tactic(auto)]

ghost use Rattle.std.specs.Prelude.{◌≡◌, ◌<◌, ◌≤◌, length, take, Some, None, MatchResult};
ghost use Rattle.symbols.specs.declared.refusals.Refusal.TheVariants.{Short, BadRecord};
ghost use Rattle.codec.specs.Records.{bytes_of, sheet_of};
ghost use Rattle.stores.specs.Sources.{sheet_told};
ghost use Rattle.records.specs.Told.{record_told};

use recorder::write_record;
use records::RecordSource;
use stores::Source;
use symbols::Refusal;

// Opens a source over the front of memory.
fn open_front(memory: &[u8], n: usize) -> Result<RecordSource<'_>, Refusal>
    requires { n ≤ length memory.now }
    ensures { MatchResult result
        (λ s. sheet_of (take n memory.now) ≡ Some (sheet_told (record_told s.width s.height s.runs.now s.symbols.now)))
        (λ e. (e ≡ BadRecord) × (sheet_of (take n memory.now) ≡ None)) }
{
    RecordSource::open(&memory[..n])
}

// Writes the record of a source into memory, and opens a source over it. It tells the same size and the same words.
pub fn record_and_open<'m, S: Source>(
    source: &S,
    memory: &'m mut [u8],
) -> Result<RecordSource<'m>, Refusal>
    ensures { MatchResult result
        (λ s. record_told s.width s.height s.runs.now s.symbols.now ≡ S.told source.now)
        (λ e. (e ≡ Short) × (length memory.old < length (bytes_of (sheet_told (S.told source.now))))) }
{
    let n = write_record(source, memory)?;
    open_front(memory, n)
}
