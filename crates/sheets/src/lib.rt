// The calls on a sheet, whatever keeps its words.
#![tactic(auto)]

ghost use Rattle.std.specs.Prelude.{◌≡◌};
ghost use Rattle.stores.specs.Sources.{sheet_told};
ghost use Rattle.sheets.specs.Questions.{read_answer, read_memory};

use maps::drawing_at;
use stores::Source;
use symbols::{Crossing, Refusal, fill};

// Reads a pixel's word back: its crossings as records, to the front of memory; tells how many. A group's number is its first
// crossing. Refused where there is no such pixel, then where the memory is shorter; then nothing is written.
pub fn read_back<S: Source>(source: &S, pixel: u32, out: &mut [Crossing]) -> Result<usize, Refusal>
    ensures answer { result ≡ read_answer (sheet_told (S.told source.now)) pixel out.old }
    ensures memory { out.new ≡ read_memory (sheet_told (S.told source.now)) pixel out.old }
{
    let drawing = drawing_at(source, pixel).ok_or(Refusal::NoPixel)?;
    fill(drawing.crossings(), out)
}
