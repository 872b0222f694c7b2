// What is told of the darts of a source: what the check says, vertices, streets and loops where it passes, and for each road
// of a pixel and place up to the first that is no dart: its opposite, next, previous and root, and how many steps a walk
// makes until it is refused.
use checks::{check, count};
use maps::{next, opposite, previous};
use model::Dart;
use std::alloc::AllocError;
use stores::Source;
use symbols::{Refusal, Road};
use walks::{Walk, root, walk_on};

// A refusal's number, with the place that it carries.
fn tell_refusal(out: &mut String, refusal: Refusal) -> Result<(), AllocError> {
    let n = refusal.number();
    write!(out, " !{n}")?;
    match refusal {
        Refusal::RoadFails { pixel, road } => { write!(out, ":{pixel}{road}") }
        Refusal::OnRing { pixel, road, place } => { write!(out, ":{pixel}{road}{place}") }
        _ => Ok(()),
    }
}

// A dart, or why there is none.
fn tell_dart(out: &mut String, answer: Result<Dart, Refusal>) -> Result<(), AllocError> {
    match answer {
        Ok(dart) => write!(out, " {dart}"),
        Err(refusal) => tell_refusal(out, refusal),
    }
}

// How many steps a walk from a dart makes, and why it stops.
fn tell_walk<S: Source>(out: &mut String, source: &S, dart: Dart) -> Result<(), AllocError> {
    match Walk::start(source, dart) {
        Ok(mut walk) => {
            let n = walk_on(source, &mut walk, 1_000_000);
            write!(out, " {n}")?;
            if let Err(refusal) = walk.step(source) {
                tell_refusal(out, refusal)?;
            }
            Ok(())
        }
        Err(refusal) => tell_refusal(out, refusal),
    }
}

// What is told of the darts through a road, up to the first place that it has not.
fn tell_road<S: Source>(
    out: &mut String,
    source: &S,
    pixel: u32,
    road: Road,
) -> Result<(), AllocError> {
    // numbers, not an index: it ends at the first place that is no dart
    for place in 0..64 {
        let dart = Dart { pixel, road, place };
        out.push_str(" |")?;
        tell_dart(out, opposite(source, dart))?;
        tell_dart(out, next(source, dart))?;
        tell_dart(out, previous(source, dart))?;
        tell_dart(out, root(source, dart))?;
        tell_walk(out, source, dart)?;
        if let Err(Refusal::NoDart) = opposite(source, dart) {
            return Ok(());
        }
    }
    Ok(())
}

// What is told of all darts.
pub fn tell_darts<S: Source>(out: &mut String, source: &S) -> Result<(), AllocError> {
    match check(source) {
        Ok(()) => out.push_str(" passes")?,
        Err(refusal) => tell_refusal(out, refusal)?,
    }
    match count(source) {
        Ok(counts) => {
            let (v, s, l) = (counts.vertices, counts.streets, counts.loops);
            write!(out, " {v} {s} {l}")?;
        }
        Err(refusal) => tell_refusal(out, refusal)?,
    }
    let last = source.size().pixels() as u32;
    // numbers, not an index: the pixel behind the last is asked too
    for pixel in 0..=last {
        for road in Road::ALL {
            tell_road(out, source, pixel, road)?;
        }
    }
    Ok(())
}
