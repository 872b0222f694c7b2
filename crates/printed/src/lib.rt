// What the program `streets` prints for a record.
#![tactic(auto)]

ghost use Rattle.std.specs.Prelude.{◌≡◌, IfOk, Some, vec_len};
ghost use Rattle.model.specs.Streets.{street_list};
ghost use Rattle.stores.specs.Sources.{sheet_told};
ghost use Rattle.slots.specs.Slots.{slots_told};
ghost use Rattle.codec.specs.Records.{sheet_of};
ghost use Rattle.printed.specs.Printed.{refused_text, printed_list, printed, SizedRecord};

use calls::load;
use records::RecordSource;
use slots::SlotStore;
use std::alloc::{AllocError, Global};
use stores::{Size, Source};
use streetlist::street_list;
use symbols::Refusal;

// How many bytes a list may have.
const MOST_LIST: usize = 65536;

// How many bytes of input are read.
const MOST_INPUT: usize = 32768;

// The line for a refusal: its number and the place that it carries.
fn refused(heap: Global, refusal: Refusal) -> Result<Vec<u8>, AllocError>
    ensures { IfOk result (λ v. v.items ≡ refused_text refusal) }
{
    let line = format!(in heap; "{refusal}\n")?;
    Ok(line.into_bytes())
}

// Memory of so many bytes.
fn room(heap: Global, n: usize) -> Result<Vec<u8>, AllocError>
    ensures { IfOk result (λ v. vec_len v ≡ n) }
{
    vec![in heap; 0; n]
}

// The bytes for the street list of a source, or for why there is none.
fn list_of<S: Source>(heap: Global, source: &S) -> Result<Vec<u8>, AllocError>
    ensures { IfOk result (λ v. v.items ≡ printed_list (street_list (sheet_told (S.told source.now)))) }
{
    let mut out = room(heap, MOST_LIST)?;
    match street_list(source, &mut out) {
        Ok(n) => {
            out.truncate(n);
            Ok(out)
        }
        Err(refusal) => refused(heap, refusal),
    }
}

// A store of slots of 64 that holds the words of a record.
fn loaded(heap: Global, bytes: &[u8], size: Size) -> Result<SlotStore, AllocError>
    requires { SizedRecord bytes.now size.width size.height }
    ensures { IfOk result (λ s. sheet_of bytes.now ≡ Some (sheet_told (slots_told s.size.width s.size.height s.slot s.memory.items))) }
{
    let memory = room(heap, size.pixels() * 64)?;
    let mut store = SlotStore::open(memory, size.width, size.height, 64)
        .ok()
        .unwrap();
    let _ = load(&mut store, bytes);
    Ok(store)
}

// The bytes for a record: its street list, or why there is none.
pub fn tell_streets(heap: Global, input: &[u8]) -> Result<Vec<u8>, AllocError>
    ensures { IfOk result (λ v. v.items ≡ printed input.now) }
{
    if input.len() > MOST_INPUT {
        return refused(heap, Refusal::Short);
    }
    match RecordSource::open(input) {
        Ok(source) => {
            let store = loaded(heap, input, source.size())?;
            list_of(heap, &store)
        }
        Err(refusal) => refused(heap, refusal),
    }
}
