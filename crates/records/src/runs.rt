// The runs of a record, four bytes each.
ghost use Rattle.std.specs.Prelude.{◌≡◌, ℕ, ◌+◌, ◌*◌, ◌<◌, true, false, ◌&&◌, [], ◌∷◌, length, MatchOption};
ghost use Rattle.codec.specs.Runs.{run as stretch, sound, within};
ghost use Rattle.std.specs.Iterator.{YieldsFirstBy, item_count};
ghost use Rattle.records.specs.Stretches.{run_list, run_pixels, follows as behind, spot};
ghost use Rattle.records.specs.Rows.{run_of, runs_left};

// A run: its first pixel and how many pixels it has.
#[derive(Clone, Copy)]
pub struct Run {
    pub offset: u16,
    pub count: u16,
}

// The runs of bytes, in order. Fewer than four bytes at the end are no run.
#[derive(Clone, Copy)]
pub struct Runs<'a> {
    left: &'a [u8],
}

// A number in two bytes, the high one first.
fn two_bytes(hi: u8, lo: u8) -> u16
    ensures { result ≡ hi * 256 + lo }
{
    u16::from_be_bytes([hi, lo])
}

impl<'a> Runs<'a> {
    // The runs of bytes from the first on.
    pub fn of(bytes: &'a [u8]) -> Runs<'a>
        ensures { result.left.now ≡ bytes.now }
    {
        Runs { left: bytes }
    }
}

impl Iterator for Runs<'_> {
    type Item = Run;

    ghost next_gives = { YieldsFirstBy run_of runs_left };

    ghost remaining = { item_count runs_left };

    fn next(&mut self) -> Option<Run> {
        let [a, b, c, d, rest @ ..] = self.left else {
            return None;
        };
        self.left = rest;
        Some(Run {
            offset: two_bytes(*a, *b),
            count: two_bytes(*c, *d),
        })
    }
}

// Where the pixels behind a run begin.
fn end_of(run: Run) -> u32
    ensures { result ≡ run.offset + run.count }
{
    u32::from(run.offset) + u32::from(run.count)
}

// Where the next run may begin: two runs do not touch.
pub fn past(run: Run) -> u32
    ensures { result ≡ run.offset + run.count + 1 }
{
    end_of(run) + 1
}

// Whether a run has a pixel, begins at low or later, and ends by end. Only low goes on from run to run, so the two are no
// struct: each place would take it apart again.
pub fn follows(run: Run, low: u32, end: u16) -> bool
    ensures { result ≡ behind low end (stretch run.offset run.count) }
{
    low <= u32::from(run.offset) && 1 <= run.count && end_of(run) <= u32::from(end)
}

// Whether a pixel lies in a run.
fn holds(run: Run, pixel: u32) -> bool
    ensures { result ≡ within (stretch run.offset run.count) pixel }
{
    u32::from(run.offset) <= pixel && pixel < end_of(run)
}

// How many pixels the runs have, if they are sorted, do not touch and end by end.
pub fn count_pixels(bytes: &[u8], end: u16) -> Option<u16>
    ensures { MatchOption result (sound 0 end (run_list bytes.now) ≡ false) (λ n. (sound 0 end (run_list bytes.now) ≡ true) × (n ≡ run_pixels (run_list bytes.now))) }
{
    let mut low: u32 = 0;
    let mut pixels: u16 = 0;
    for run in Runs::of(bytes) {
        if !follows(run, low, end) {
            return None;
        }
        low = past(run);
        pixels += run.count;
    }
    Some(pixels)
}

// How many pixels of the runs come before a pixel that lies in one; none for a pixel in none. The runs are read as far as
// they are sorted, do not touch and end by end.
pub fn spot_of(bytes: &[u8], end: u16, pixel: u32) -> Option<u16>
    ensures { result ≡ spot 0 end (run_list bytes.now) pixel }
{
    let mut low: u32 = 0;
    let mut before: u16 = 0;
    for run in Runs::of(bytes) {
        if !follows(run, low, end) {
            return None;
        }
        if holds(run, pixel) {
            return Some(before + (pixel - u32::from(run.offset)) as u16);
        }
        low = past(run);
        before += run.count;
    }
    None
}
