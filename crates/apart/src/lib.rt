// Two sheets told apart by their lists and records, whatever keeps their words.
#![tactic(auto)]

ghost use Rattle.std.specs.Prelude.{◌≡◌, ◌≤◌, length, IfOk, Decides, MatchResult};
ghost use Rattle.symbols.specs.declared.refusals.Refusal.TheVariants.{Opening};
ghost use Rattle.symbols.specs.Refusals.{fill_answer, filled};
ghost use Rattle.codec.specs.Records.{bytes_of};
ghost use Rattle.stores.specs.Sources.{plain_kept, sheet_told};
ghost use Rattle.streetlist.specs.Lists.{list_answer, list_memory};
ghost use Rattle.plain.specs.Plain.{run};
ghost use Rattle.calls.specs.Scripts.{calls_of};
ghost use Rattle.apart.specs.Fronts.{front, Compared};
ghost use Rattle.apart.specs.Statements.{RefusedOpening, ToldApart};

use calls::Call;
use openings::Opens;
use recorder::write_record;
use stores::{Source, Store, Unopened, replay};
use streetlist::street_list;
use symbols::Refusal;

mod verdict;

pub use verdict::{Made, Verdict};

// Whether two lists of bytes are the same.
fn same_bytes(a: &[u8], b: &[u8]) -> bool
    ensures { Decides result (a.now ≡ b.now) }
{
    a == b
}

// Whether the fronts of two memories are the same, if both were filled.
fn same_fronts(
    a: &[u8],
    m: Result<usize, Refusal>,
    b: &[u8],
    n: Result<usize, Refusal>,
) -> Option<bool>
    requires { (IfOk m (λ k. k ≤ length a.now)) × (IfOk n (λ k. k ≤ length b.now)) }
    ensures { Compared (front m a.now) (front n b.now) result }
{
    match (m, n) {
        (Ok(m), Ok(n)) => Some(same_bytes(&a[0..m], &b[0..n])),
        _ => None,
    }
}

// Makes the list and the record of a source.
fn make<S: Source>(source: &S, list: &mut [u8], file: &mut [u8]) -> Made
    ensures listed { result.listed ≡ list_answer (sheet_told (S.told source.now)) list.old }
    ensures list { list.new ≡ list_memory (sheet_told (S.told source.now)) list.old }
    ensures recorded { result.recorded ≡ fill_answer (bytes_of (sheet_told (S.told source.now))) file.old }
    ensures file { file.new ≡ filled (bytes_of (sheet_told (S.told source.now))) file.old }
{
    let listed = street_list(source, list);
    let recorded = write_record(source, file);
    Made { listed, recorded }
}

// Replays a script on a store, and makes its list and its record.
fn play<S: Store>(store: &mut S, script: &[Call<'_>], list: &mut [u8], file: &mut [u8]) -> Made
    ensures after { plain_kept S.told S.longest S.total store.new ≡ run (plain_kept S.told S.longest S.total store.old) (calls_of script.now) }
    ensures listed { result.listed ≡ list_answer (sheet_told (S.told store.new)) list.old }
    ensures list { list.new ≡ list_memory (sheet_told (S.told store.new)) list.old }
    ensures recorded { result.recorded ≡ fill_answer (bytes_of (sheet_told (S.told store.new))) file.old }
    ensures file { file.new ≡ filled (bytes_of (sheet_told (S.told store.new))) file.old }
{
    replay(store, script);
    make(store, list, file)
}

// Opens two stores of any kinds, replays a script of calls on each, makes both lists and both records, and tells which of
// them were given and whether they are equal. Where an opening is refused, no memory that was lent has changed.
pub fn tell_apart<A: Opens, B: Opens>(
    left: A,
    left_calls: &[Call<'_>],
    left_list: &mut [u8],
    left_file: &mut [u8],
    right: B,
    right_calls: &[Call<'_>],
    right_list: &mut [u8],
    right_file: &mut [u8],
) -> Result<Verdict, Unopened>
    ensures { MatchResult result
        (λ v. ToldApart (A.limits left) (calls_of left_calls.now) (B.limits right) (calls_of right_calls.now) v
        left_list.old left_list.new left_file.old left_file.new
        right_list.old right_list.new right_file.old right_file.new)
        (λ e. RefusedOpening (A.limits left) (B.limits right) (A.memory left) (B.memory right) e.memory.items
        × (e.refusal ≡ Opening)
        × (left_list.new ≡ left_list.old) × (left_file.new ≡ left_file.old)
        × (right_list.new ≡ right_list.old) × (right_file.new ≡ right_file.old)) }
{
    let mut first = left.open()?;
    let mut second = right.open()?;
    let left = play(&mut first, left_calls, left_list, left_file);
    let right = play(&mut second, right_calls, right_list, right_file);
    let lists = same_fronts(left_list, left.listed, right_list, right.listed);
    let records = same_fronts(left_file, left.recorded, right_file, right.recorded);
    Ok(Verdict {
        left,
        right,
        lists,
        records,
    })
}
