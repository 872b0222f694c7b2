// Runs writes through both stores, a case a line, so that the answers can be compared with worked out ones.
//   slots TAB W H SLOT MEMORY TAB WRITES, or strip TAB W H MEMORY TAB WRITES, with a write as PIXEL:WORD
// The answer has the number of each refusal, 0 for none, and then the words of all pixels; or `refused N`.
#![tactic(auto)]

use openings::{Opens, SlotOpening, StripOpening};
use std::alloc::{AllocError, Global};
use std::io::{BufRead, BufReader};
use stores::{Source, Store};
use symbols::Symbol;

// The symbols of a text; what is no symbol is left out.
fn symbols_of(heap: Global, text: &str) -> Result<Vec<Symbol>, AllocError> {
    let mut word = Vec::new(heap);
    for c in text.chars() {
        if let Ok(symbol) = Symbol::try_from(c) {
            word.push(symbol)?;
        }
    }
    Ok(word)
}

// Makes one write and tells the number of its refusal.
fn tell_write<S: Store>(
    heap: Global,
    out: &mut String,
    store: &mut S,
    item: &str,
) -> Result<(), AllocError> {
    let Some((pixel, text)) = item.split_once(':') else {
        return out.push_str("no write ");
    };
    let Ok(pixel) = pixel.parse::<u32>() else {
        return out.push_str("no pixel ");
    };
    let word = symbols_of(heap, text)?;
    let n = match store.write(pixel, &word) {
        Ok(()) => 0,
        Err(refusal) => refusal.number(),
    };
    write!(out, "{n} ")
}

// A pixel's word, or the number of its refusal.
fn tell_word<S: Source>(out: &mut String, store: &S, pixel: u32) -> Result<(), AllocError> {
    // a store copies a pixel's word into memory that it is lent
    let mut room = [Symbol::DeadEnd; 64];
    out.push(' ')?;
    match store.word(pixel, &mut room) {
        Ok(n) => {
            for symbol in room.iter().take(n) {
                write!(out, "{symbol}")?;
            }
            Ok(())
        }
        Err(refusal) => write!(out, "{}", refusal.number()),
    }
}

// Opens a store, makes the writes, and tells the words of all pixels, and what is answered for the pixel behind the last.
fn tell_store<O: Opens>(
    heap: Global,
    out: &mut String,
    opening: O,
    writes: &str,
) -> Result<(), AllocError> {
    let mut store = match opening.open() {
        Ok(store) => store,
        Err(e) => {
            return write!(out, "refused {}", e.refusal.number());
        }
    };
    for item in writes.split(' ') {
        tell_write(heap, out, &mut store, item)?;
    }
    out.push('|')?;
    let last = u32::from(store.width()) * u32::from(store.height());
    // numbers, not an index: the pixel behind the last is asked too
    for pixel in 0..=last {
        tell_word(out, &store, pixel)?;
    }
    Ok(())
}

// The next number of a line.
fn number_in<'a>(numbers: &'a str) -> Option<(usize, &'a str)> {
    let (first, rest) = numbers.split_once(' ').unwrap_or((numbers, ""));
    Some((first.parse::<usize>().ok()?, rest))
}

fn sides_in<'a>(numbers: &'a str) -> Option<(u16, u16, &'a str)> {
    let (w, rest) = number_in(numbers)?;
    let (h, rest) = number_in(rest)?;
    Some((u16::try_from(w).ok()?, u16::try_from(h).ok()?, rest))
}

fn tell_slots(
    heap: Global,
    out: &mut String,
    numbers: &str,
    writes: &str,
) -> Result<(), AllocError> {
    let Some((width, height, rest)) = sides_in(numbers) else {
        return out.push_str("no size");
    };
    let Some((slot, rest)) = number_in(rest) else {
        return out.push_str("no slot");
    };
    let Some((room, _)) = number_in(rest) else {
        return out.push_str("no memory");
    };
    let memory = vec![in heap; 7; room]?;
    let opening = SlotOpening {
        memory,
        width,
        height,
        slot,
    };
    tell_store(heap, out, opening, writes)
}

fn tell_strip(
    heap: Global,
    out: &mut String,
    numbers: &str,
    writes: &str,
) -> Result<(), AllocError> {
    let Some((width, height, rest)) = sides_in(numbers) else {
        return out.push_str("no size");
    };
    let Some((room, _)) = number_in(rest) else {
        return out.push_str("no memory");
    };
    let memory = vec![in heap; 7; room]?;
    let opening = StripOpening {
        memory,
        width,
        height,
    };
    tell_store(heap, out, opening, writes)
}

fn tell_case(heap: Global, line: &str) -> Result<String, AllocError> {
    let mut out = String::new(heap);
    let Some((kind, rest)) = line.split_once('\t') else {
        out.push_str("no case")?;
        return Ok(out);
    };
    let Some((numbers, writes)) = rest.split_once('\t') else {
        out.push_str("no writes")?;
        return Ok(out);
    };
    match kind {
        "slots" => tell_slots(heap, &mut out, numbers, writes)?,
        "strip" => tell_strip(heap, &mut out, numbers, writes)?,
        _ => out.push_str("no such store")?,
    }
    Ok(out)
}

// Answers each line. It stands in each program that runs cases: shared, it would be a public function that promises nothing,
// since no contract says what is printed.
fn run(rt: &HostRuntime) -> anyhow::Result<()> {
    for line in BufReader::new(rt.alloc(), rt.stdin())?.lines(rt.alloc()) {
        let line = line?;
        let answer = tell_case(rt.alloc(), line.as_str())?;
        println!(rt; "{answer}")?;
    }
    Ok(())
}

fn main(rt: HostRuntime) -> anyhow::Result<()> {
    run(&rt)
}
