// Vertices, streets and loops.
ghost use Rattle.std.specs.Prelude.{◌≡◌, ◌<◌, ◌≤◌};
ghost use Rattle.drawings.specs.Drawings.{crossings};
ghost use Rattle.model.specs.Sheets.{pixels, drawing_at};
ghost use Rattle.model.specs.Streets.{vertices, counts};
ghost use Rattle.stores.specs.Sources.{sheet_told};
ghost use Rattle.checks.specs.Counting.{begins_vertex};

use crate::totals::total;
use darts::{Passable, pixels_of};
use drawings::Drawing;
use maps::drawing_at;
use stores::Source;
use symbols::Crossing;

// Whether a crossing is the first of a group that has a vertex.
fn begins_vertex(crossing: Crossing, i: usize) -> bool
    ensures { result ≡ begins_vertex crossing i }
{
    usize::from(crossing.group) == i && crossing.vertex
}

// How many groups with a vertex a drawing has.
fn vertices_in(drawing: &Drawing) -> u32
    ensures is { result ≡ vertices (crossings drawing.now) }
    ensures few { result ≤ 60 }
{
    let mut n: u32 = 0;
    for (i, crossing) in drawing.crossings().iter().enumerate() {
        if begins_vertex(*crossing, i) {
            n += 1;
        }
    }
    n
}

// How many groups with a vertex a pixel has.
fn vertices_at<S: Source>(source: &S, pixel: u32) -> u32
    requires { pixel < pixels (sheet_told (S.told source.now)) }
    ensures is { result ≡ vertices (drawing_at (sheet_told (S.told source.now)) pixel) }
    ensures few { result ≤ 60 }
{
    vertices_in(&drawing_at(source, pixel).unwrap())
}

// How many vertices there are.
pub(crate) fn vertices<S: Source>(source: &S) -> u32
    ensures { result ≡ (counts (sheet_told (S.told source.now))).vertex_count }
{
    let mut n: u32 = 0;
    for pixel in 0..pixels_of(source) {
        n += vertices_at(source, pixel);
    }
    n
}

// How many streets there are: half the sidewalks.
pub(crate) fn streets<S: Source>(free: &Passable<S>) -> u32
    ensures { result ≡ (counts (sheet_told (S.told free.now.source.now))).street_count }
{
    (total(free, |dart| u32::from(free.begins(dart).unwrap_or(false))) / 2) as u32
}

// How many loops there are: each has one smallest dart.
pub(crate) fn loops<S: Source>(free: &Passable<S>) -> u32
    ensures { result ≡ (counts (sheet_told (S.told free.now.source.now))).loop_count }
{
    total(free, |dart| u32::from(free.is_root(dart).unwrap_or(false))) as u32
}
