// How far the words of a record are passed, each run and each word once.
ghost use Rattle.std.specs.Prelude.{◌≡◌, ℕ, ◌+◌, ◌*◌, ◌<◌, ◌≤◌, drop};
ghost use Rattle.codec.specs.Bits.{bits_of};
ghost use Rattle.codec.specs.Runs.{run as stretch};
ghost use Rattle.stores.specs.Bytes.{encoded};
ghost use Rattle.records.specs.Stretches.{run_list};
ghost use Rattle.records.specs.Rows.{runs_left};
ghost use Rattle.records.specs.Told.{word_in, side_or_one};
ghost use Rattle.records.specs.Ahead.{begins as starts, raised as later, spot_ahead, word_ahead};

use crate::RecordSource;
use crate::runs::{Run, Runs, follows, past};

// How far the words of a record are passed.
#[derive(Clone, Copy)]
pub(crate) struct Place<'a> {
    // the present pixel
    pub(crate) pixel: u16,
    // how many words of its run are to come; 0 where it lies in none, or its run is not found yet
    pub(crate) inside: u16,
    // where the next run may begin
    pub(crate) low: u32,
    // the runs to come
    pub(crate) runs: Runs<'a>,
    // the index of the next word's first symbol
    pub(crate) from: u32,
}

// Whether a run is in its place and begins at a pixel.
fn begins(run: Run, low: u32, end: u16, pixel: u16) -> bool
    ensures { result ≡ starts low end (stretch run.offset run.count) pixel }
{
    follows(run, low, end) && run.offset == pixel
}

// Where the next run may begin, behind a pixel that lies in none.
fn raised(low: u32, pixel: u16) -> u32
    ensures is { result ≡ later low pixel }
    ensures behind { (pixel < result) × (low ≤ result) }
{
    let pixel = u32::from(pixel);
    if low <= pixel { pixel + 1 } else { low }
}

// Goes into the run that begins at the present pixel, if there is one.
pub(crate) fn entered<'a>(place: Place<'a>, end: u16) -> Place<'a>
    requires { place.pixel + place.inside ≤ place.low }
    ensures same { (result.pixel ≡ place.entry.pixel) × (result.from ≡ place.entry.from) }
    ensures behind { (result.pixel + result.inside ≤ result.low) × (result.pixel < result.low) }
    ensures spots { (k : ℕ) → place.entry.pixel ≤ k → spot_ahead end result.pixel result.inside result.low (runs_left result.runs) k ≡ spot_ahead end place.entry.pixel place.entry.inside place.entry.low (runs_left place.entry.runs) k }
{
    if place.inside > 0 {
        return place;
    }
    let outside = Place {
        low: raised(place.low, place.pixel),
        ..place
    };
    let mut runs = place.runs;
    match runs.next() {
        Some(run) if begins(run, place.low, end, place.pixel) => Place {
            inside: run.count,
            low: past(run),
            runs,
            ..place
        },
        _ => outside,
    }
}

// The words of a record from a pixel on.
#[derive(Drop)]
pub struct Words<'a> {
    pub(crate) source: RecordSource<'a>,
    pub(crate) place: Place<'a>,
    ghost behind: { place.pixel + place.inside ≤ place.low },
    ghost few: { place.from ≤ 64 * place.pixel },
    ghost told: { (k : ℕ) → place.pixel ≤ k
        → encoded (word_ahead (side_or_one source.width * side_or_one source.height) place.pixel place.inside place.low (runs_left place.runs) (drop (3 * place.from) (bits_of source.symbols.now)) k)
        ≡ encoded (word_in (side_or_one source.width * side_or_one source.height) (run_list source.runs.now) (bits_of source.symbols.now) k) },
}

// The words of a record from its first pixel on.
#[tactic(auto, using(crate::proofs::Ahead::ahead_first))]
pub(crate) fn first_words<'a>(source: RecordSource<'a>) -> Words<'a>
    ensures source { result.source ≡ source.entry }
    ensures pixel { result.place.pixel ≡ 0 }
{
    Words {
        source,
        place: Place {
            pixel: 0,
            inside: 0,
            low: 0,
            runs: Runs::of(source.runs),
            from: 0,
        },
    }
}
