// Runs words and tables through the library, a case a line, so that the answers can be compared with worked out ones.
//   word TAB TEXT: its crossings as road:group:vertex, where lines that enter them leave, and the text built from its table
//   table TAB RECORDS: the text of the word that is built
// Either answers `refused N` in place of that.
#![tactic(auto)]

use drawings::Drawing;
use std::alloc::{AllocError, Global};
use std::io::{BufRead, BufReader};
use symbols::Crossing;
use tables::build;
use words::Word;

fn push_crossings(out: &mut String, d: &Drawing) -> Result<(), AllocError> {
    for (i, c) in d.crossings().iter().enumerate() {
        let Some((road, _)) = d.place_of(i) else {
            continue;
        };
        let space = if i > 0 { " " } else { "" };
        let group = c.group;
        let vertex = if c.vertex { 'v' } else { '-' };
        write!(out, "{space}{road}:{group}:{vertex}")?;
    }
    Ok(())
}

fn push_steps(out: &mut String, d: &Drawing) -> Result<(), AllocError> {
    // numbers of crossings, which the drawing is asked with
    for i in 0..d.len() {
        let Some(left) = d.leaves_at(i) else {
            continue;
        };
        let space = if i > 0 { " " } else { "" };
        write!(out, "{space}{left}")?;
    }
    Ok(())
}

fn push_built(out: &mut String, table: &[Crossing]) -> Result<(), AllocError> {
    match build(table) {
        Ok(word) => write!(out, "{word}"),
        Err(refusal) => write!(out, "{refusal}"),
    }
}

fn tell_word(out: &mut String, text: &str) -> Result<(), AllocError> {
    match Word::read(text) {
        Ok(word) => {
            let d = word.drawing();
            push_crossings(out, &d)?;
            out.push('\t')?;
            push_steps(out, &d)?;
            out.push('\t')?;
            push_built(out, d.crossings())
        }
        Err(refusal) => write!(out, "{refusal}"),
    }
}

// One record, as road:group:flag.
fn record_of(item: &str) -> Option<Crossing> {
    let (road, rest) = item.split_once(':')?;
    let (group, flag) = rest.split_once(':')?;
    Some(Crossing {
        road: road.parse::<u8>().ok()?,
        group: group.parse::<u16>().ok()?,
        vertex: flag == "1",
    })
}

fn tell_table(heap: Global, out: &mut String, records: &str) -> Result<(), AllocError> {
    let mut table = Vec::new(heap);
    for item in records.split(' ') {
        if let Some(c) = record_of(item) {
            table.push(c)?;
        }
    }
    push_built(out, &table)
}

fn tell_case(heap: Global, line: &str) -> Result<String, AllocError> {
    let mut out = String::new(heap);
    match line.split_once('\t') {
        Some(("word", text)) => tell_word(&mut out, text)?,
        Some(("table", records)) => tell_table(heap, &mut out, records)?,
        _ => out.push_str("no such case")?,
    }
    Ok(out)
}

// Answers each line. It stands in each program that runs cases: shared, it would be a public function that promises nothing,
// since no contract says what is printed.
fn run(rt: &HostRuntime) -> anyhow::Result<()> {
    for line in BufReader::new(rt.alloc(), rt.stdin())?.lines(rt.alloc()) {
        let line = line?;
        let answer = tell_case(rt.alloc(), line.as_str())?;
        println!(rt; "{answer}")?;
    }
    Ok(())
}

fn main(rt: HostRuntime) -> anyhow::Result<()> {
    run(&rt)
}
