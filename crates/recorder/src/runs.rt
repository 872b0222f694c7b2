// Runs: the whole stretches of pixels whose words a record has, from the left.
ghost use Rattle.std.specs.Prelude.{◌≡◌, ◌+◌, ◌*◌, ◌≤◌, length};
ghost use Rattle.std.specs.List.{flat_map};
ghost use Rattle.codec.specs.Runs.{runs};
ghost use Rattle.codec.specs.Records.{run_bytes};
ghost use Rattle.recorder.specs.Bytes.{put_bytes};
ghost use Rattle.recorder.specs.Runs.{ended, still_open, run_from, Begun};
ghost use Rattle.recorder.specs.Words.{marks_told};

use crate::bytes::put_number;
use crate::words::{is_shown, pixel_count};
use stores::Source;

// The first pixel of the run that ends before a pixel, if one is open and the pixel is not shown.
fn ended_run(first: Option<u16>, marked: bool) -> Option<u16>
    ensures { result ≡ ended first marked }
{
    if marked { None } else { first }
}

// The first pixel of the run that is open behind a pixel, if one is.
fn open_run(first: Option<u16>, pixel: u16, marked: bool) -> Option<u16>
    ensures { result ≡ still_open first pixel marked }
{
    marked.then_some(first.unwrap_or(pixel))
}

// Memory that is lent, and where the next byte goes.
#[derive(Drop)]
pub(crate) struct Out<'m> {
    pub(crate) bytes: &'m mut [u8],
    pub(crate) at: usize,
}

impl Out<'_> {
    // Writes the run from a first pixel up to a pixel, if there is one.
    fn put_run(&mut self, first: Option<u16>, pixel: u16)
        requires begun { Begun first pixel }
        requires room { self.old.at + 4 * length (run_from first pixel) ≤ length self.old.bytes.now }
        ensures same_reference { self.new.bytes.ghost_name ≡ self.old.bytes.ghost_name }
        ensures len { length self.new.bytes.now ≡ length self.old.bytes.now }
        ensures is { self.new.at ≡ self.old.at + 4 * length (run_from first pixel) }
        ensures memory { self.new.bytes.now ≡ put_bytes self.old.bytes.now self.old.at (flat_map run_bytes (run_from first pixel)) }
    {
        let Some(first) = first else {
            return;
        };
        put_number(self.bytes, self.at, first);
        put_number(self.bytes, self.at + 2, pixel - first);
        self.at += 4;
    }
}

// How many runs there are. The place behind the last pixel ends the last run.
pub(crate) fn count_runs<S: Source>(source: &S) -> u16
    ensures is { result ≡ length (runs 0 (marks_told (S.told source.now))) }
    ensures most { result ≤ 4096 }
{
    let mut n: u16 = 0;
    let mut first: Option<u16> = None;
    for pixel in 0..pixel_count(source) + 1 {
        let marked = is_shown(source, pixel);
        n += u16::from(ended_run(first, marked).is_some());
        first = open_run(first, pixel, marked);
    }
    n
}

// Writes the runs behind one another from a place on.
pub(crate) fn write_runs<S: Source>(source: &S, out: &mut [u8], at: usize)
    requires { at + 4 * length (runs 0 (marks_told (S.told source.now))) ≤ length out.old }
    ensures { out.new ≡ put_bytes out.old at (flat_map run_bytes (runs 0 (marks_told (S.told source.now)))) }
{
    let mut out = Out { bytes: out, at };
    let mut first: Option<u16> = None;
    for pixel in 0..pixel_count(source) + 1 {
        let marked = is_shown(source, pixel);
        out.put_run(ended_run(first, marked), pixel);
        first = open_run(first, pixel, marked);
    }
}
