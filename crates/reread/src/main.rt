// Reads records, a case a line in hexadecimal, and writes each of them again, so that both can be compared with worked out
// ones. The answer is what `streets` prints, with a bar for the end of a line; and for a record then the size, the words of
// all pixels, the record written from them, and what is told of its darts.
#![tactic(auto)]

use asked::tell_darts;
use printed::tell_streets;
use recorder::{record_len, write_record};
use records::RecordSource;
use std::alloc::{AllocError, Global};
use std::io::{BufRead, BufReader};
use stores::Source;
use symbols::Symbol;

mod asked;

// The value of a hexadecimal digit; 0 of any other byte.
fn digit(b: u8) -> u8 {
    match b {
        b'0'..=b'9' => b - b'0',
        b'a'..=b'f' => b - b'a' + 10,
        _ => 0,
    }
}

// The bytes of a line of hexadecimal digits.
fn bytes_of(heap: Global, line: &str) -> Result<Vec<u8>, AllocError> {
    let mut bytes = Vec::new(heap);
    for pair in line.as_bytes().chunks(2) {
        if let [hi, lo] = pair {
            bytes.push((digit(*hi) % 16) * 16 + digit(*lo) % 16)?;
        }
    }
    Ok(bytes)
}

// A pixel's word, or the number of its refusal.
fn tell_word<S: Source>(out: &mut String, source: &S, pixel: u32) -> Result<(), AllocError> {
    // a source copies a pixel's word into memory that it is lent
    let mut room = [Symbol::DeadEnd; 64];
    out.push(' ')?;
    match source.word(pixel, &mut room) {
        Ok(n) => {
            for s in room.iter().take(n) {
                write!(out, "{s}")?;
            }
            Ok(())
        }
        Err(refusal) => write!(out, "{}", refusal.number()),
    }
}

// The record of a source in hexadecimal, and what is answered where the memory is a byte too short.
fn tell_record<S: Source>(heap: Global, out: &mut String, source: &S) -> Result<(), AllocError> {
    let len = record_len(source);
    let mut memory = vec![in heap; 0xee; len]?;
    let short = match write_record(source, &mut memory[1..]) {
        Ok(_) => 0,
        Err(refusal) => refusal.number(),
    };
    write!(out, " {short} ")?;
    if write_record(source, &mut memory).is_err() {
        return out.push_str("no record");
    }
    for b in memory.iter() {
        write!(out, "{b:02x}")?;
    }
    Ok(())
}

// What is printed for a record, with a bar for the end of a line.
fn tell_printed(heap: Global, out: &mut String, bytes: &[u8]) -> Result<(), AllocError> {
    let text = tell_streets(heap, bytes)?;
    for b in text.iter() {
        match *b {
            b'\n' => out.push('|')?,
            b => out.push(char::from(b))?,
        }
    }
    Ok(())
}

fn tell_case(heap: Global, line: &str) -> Result<String, AllocError> {
    let mut out = String::new(heap);
    let bytes = bytes_of(heap, line)?;
    tell_printed(heap, &mut out, &bytes)?;
    let Ok(source) = RecordSource::open(&bytes) else {
        return Ok(out);
    };
    let size = source.size();
    write!(out, " {} {}", size.width, size.height)?;
    let last = size.pixels() as u32;
    // numbers, not an index: the pixel behind the last is asked too
    for pixel in 0..=last {
        tell_word(&mut out, &source, pixel)?;
    }
    tell_record(heap, &mut out, &source)?;
    tell_darts(&mut out, &source)?;
    Ok(out)
}

// Answers each line. It stands in each program that runs cases: shared, it would be a public function that promises nothing,
// since no contract says what is printed.
fn run(rt: &HostRuntime) -> anyhow::Result<()> {
    for line in BufReader::new(rt.alloc(), rt.stdin())?.lines(rt.alloc()) {
        let line = line?;
        let answer = tell_case(rt.alloc(), line.as_str())?;
        println!(rt; "{answer}")?;
    }
    Ok(())
}

fn main(rt: HostRuntime) -> anyhow::Result<()> {
    run(&rt)
}
