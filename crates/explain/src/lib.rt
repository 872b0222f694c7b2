// What a word means, as text.
#![tactic(auto)]

ghost use Rattle.std.specs.Prelude.{◌≡◌, ℕ, ◌<◌, ◌≤◌, length, IfOk, Some, None, string_bytes};
ghost use Rattle.rules.specs.Crossings.{where_in};
ghost use Rattle.drawings.specs.Drawings.{crossings};
ghost use Rattle.explain.specs.Explained.{with_text, written, line_at, meaning, one_line as lone, explained};

use drawings::Drawing;
use std::alloc::{AllocError, Global};
use std::fmt;
use symbols::Road;
use words::Word;

// What is told of one crossing.
#[derive(Clone, Copy)]
pub struct Line {
    pub crossing: usize,
    pub road: Road,
    pub place: usize,
    pub group: u16,
    pub vertex: bool,
    pub leaves: usize,
}

fn with_or_without(vertex: bool) -> &'static str
    ensures { result.now ≡ with_text vertex }
{
    if vertex { "with" } else { "without" }
}

impl fmt::Display for Line {
    ghost output = { λ l. Some (written l) };

    fn fmt<W: fmt::Write>(&self, f: &mut fmt::Formatter<W>) -> fmt::Result {
        let Line {
            crossing,
            road,
            place,
            group,
            vertex,
            leaves,
        } = self;
        let with = with_or_without(*vertex);
        write!(
            f,
            "crossing {crossing} at {road}{place}, group {group} {with} a vertex, leaves at {leaves}\n"
        )
    }
}

// What is told of a crossing, if the drawing has it.
fn line_of(d: &Drawing, crossing: usize) -> Option<Line>
    ensures { result ≡ where_in (crossings d.now) crossing (line_at (crossings d.now) crossing) }
{
    let c = d.crossings().get(crossing)?;
    let (road, place) = d.place_of(crossing)?;
    let leaves = d.leaves_at(crossing)?;
    Some(Line {
        crossing,
        road,
        place,
        group: c.group,
        vertex: c.vertex,
        leaves,
    })
}

// What a drawing means: how many crossings it has, then a line for each.
fn tell(heap: Global, d: &Drawing) -> Result<String, AllocError>
    ensures { IfOk result (λ s. string_bytes s ≡ meaning (crossings d.now)) }
{
    let n = d.len();
    let mut text = format!(in heap; "crossings {n}\n")?;
    for i in 0..n {
        let line = line_of(d, i).unwrap();
        write!(text, "{line}")?;
    }
    Ok(text)
}

// The input without the byte 10 that ends its line.
fn one_line(input: &[u8]) -> &[u8]
    ensures { result.now ≡ lone input.now }
{
    match input {
        [text @ .., b'\n'] => text,
        _ => input,
    }
}

// What the word on a line of input means, or that it is refused and with which number.
pub fn explain(heap: Global, input: &[u8]) -> Result<String, AllocError>
    ensures { IfOk result (λ s. string_bytes s ≡ explained input.now) }
{
    match Word::read_bytes(one_line(input)) {
        Ok(word) => tell(heap, &word.drawing()),
        Err(refusal) => {
            let n = refusal.number();
            format!(in heap; "refused {n}\n")
        }
    }
}
