// Reads a record from standard input and prints its street list, or why there is none.
#![tactic(auto)]

use printed::tell_streets;
use std::io::{Read, Write};

fn run(rt: &HostRuntime) -> anyhow::Result<()> {
    let mut input = Vec::new(rt.alloc());
    rt.stdin().read_to_end(&mut input)?;
    let text = tell_streets(rt.alloc(), &input)?;
    rt.stdout().write_all(&text)?;
    Ok(())
}

fn main(rt: HostRuntime) -> anyhow::Result<()> {
    run(&rt)
}
