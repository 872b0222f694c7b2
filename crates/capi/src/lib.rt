// Opposite, next and previous by numbers: on the bytes of a record and the code of a dart. They allocate nothing.
#![tactic(auto)]

ghost use Rattle.std.specs.Prelude.{◌≡◌, ◌<◌, pos, neg_ℤ, IfOk};
ghost use Rattle.symbols.specs.Refusals.{number};
ghost use Rattle.model.specs.Darts.{opposite, next, previous};
ghost use Rattle.capi.specs.Codes.{road_in, dart_coded, dart_code, told_code, asked, CodesTell};

use model::Dart;
use records::RecordSource;
use symbols::{Refusal, Road};

// The road with a code of two bits. C has roads, darts and refusals as numbers alone.
fn road_of(code: u32) -> Road
    ensures { result ≡ road_in code }
{
    Road::ALL[(code % 4) as usize]
}

// The dart of a code.
fn dart_of(code: u32) -> Dart
    ensures { result ≡ dart_coded code }
{
    Dart {
        pixel: code / 256,
        road: road_of(code / 64),
        place: (code % 64) as u8,
    }
}

// The code of a dart.
fn code_of(dart: Dart) -> i32
    requires { (dart.pixel < 4096) × (dart.place < 64) }
    ensures { result ≡ pos (dart_code dart) }
{
    dart.pixel as i32 * 256 + i32::from(u8::from(dart.road)) * 64 + i32::from(dart.place)
}

// The number of a refusal, with its sign turned: so C tells it from the code of a dart.
fn refused(refusal: Refusal) -> i32
    ensures { result ≡ neg_ℤ (pos (number refusal)) }
{
    -i32::from(refusal.number())
}

// An answer as C has it.
fn told(answer: Result<Dart, Refusal>) -> i32
    requires { IfOk answer (λ d. (d.pixel < 4096) × (d.place < 64)) }
    ensures { result ≡ told_code answer }
{
    match answer {
        Ok(dart) => code_of(dart),
        Err(refusal) => refused(refusal),
    }
}

// The three calls differ in the step alone. With the step as a closure handed to `and_then` the proof did not close: that
// the answer's pixel and place are small is not known behind it.

// The dart that leaves the entered pixel through the same crossing.
pub fn plate_opposite(bytes: &[u8], dart: u32) -> i32
    ensures { result ≡ asked opposite bytes.now dart }
{
    match RecordSource::open(bytes) {
        Ok(source) => told(maps::opposite(&source, dart_of(dart))),
        Err(refusal) => refused(refusal),
    }
}

// The dart that leaves the entered pixel by the crossing before the entered one in its group.
pub fn plate_next(bytes: &[u8], dart: u32) -> i32
    ensures { result ≡ asked next bytes.now dart }
{
    match RecordSource::open(bytes) {
        Ok(source) => told(maps::next(&source, dart_of(dart))),
        Err(refusal) => refused(refusal),
    }
}

// The dart whose next this one is.
pub fn plate_previous(bytes: &[u8], dart: u32) -> i32
    ensures { result ≡ asked previous bytes.now dart }
{
    match RecordSource::open(bytes) {
        Ok(source) => told(maps::previous(&source, dart_of(dart))),
        Err(refusal) => refused(refusal),
    }
}

// Each code is that of one dart, and each dart of a sheet has a code.
pub fn codes_tell()
    ensures { CodesTell }
{}
