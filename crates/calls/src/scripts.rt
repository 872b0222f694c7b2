// Calls as values, which make scripts.
ghost use Rattle.calls.specs.Scripts.{call_of};

use crate::{build, clear, load, put};
use stores::{Step, Store};
use symbols::{Crossing, Refusal, Symbol};

// One call, with its arguments as they are handed in. A question changes nothing.
#[derive(Clone, Copy)]
pub enum Call<'a> {
    Put { pixel: u32, text: &'a str },
    Write { pixel: u32, word: &'a [Symbol] },
    Build { pixel: u32, table: &'a [Crossing] },
    Clear { pixel: u32 },
    Load { bytes: &'a [u8] },
    Question,
}

impl Step for Call<'_> {
    ghost call = { call_of };

    fn make<S: Store>(&self, store: &mut S) -> Result<(), Refusal> {
        match *self {
            Call::Put { pixel, text } => put(store, pixel, text),
            Call::Write { pixel, word } => store.write(pixel, word),
            Call::Build { pixel, table } => build(store, pixel, table),
            Call::Clear { pixel } => clear(store, pixel),
            Call::Load { bytes } => load(store, bytes),
            Call::Question => Ok(()),
        }
    }
}
