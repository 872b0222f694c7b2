// Whether a table means a drawing.
ghost use Rattle.std.specs.Prelude.{◌≡◌, ℕ, ◌+◌, ◌<◌, ◌≤◌, [], true, false, length, reverse, Some, MatchOption, Decides};
ghost use Rattle.rows.specs.Rows.{items};
ghost use Rattle.rules.specs.Tables.{at, first_of, Rising, Flagged, Paired, Uncrossed};
ghost use Rattle.tables.specs.Nests.{turn, nests, firsts};
ghost use Rattle.tables.specs.Judging.{Judged};

use crate::groups::{first_record, first_records, goes_on, last_records, size};
use rows::Row;
use symbols::{Crossing, Refusal};

// The open groups, the innermost last, after the record k of the group that the record g begins; nothing where groups cross.
fn turn(opened: &mut Row<u8, 60>, k: usize, g: u8, more: bool) -> Option<()>
    requires { length (items opened.old) < 60 }
    ensures { MatchOption result (turn k g more (Some (reverse (items opened.old))) ≡ None)
        (λ _. (turn k g more (Some (reverse (items opened.old))) ≡ Some (reverse (items opened.new))) × (length (items opened.new) ≤ length (items opened.old) + 1)) }
{
    if usize::from(g) == k {
        if more {
            opened.push(g)?;
        }
        return Some(());
    }
    let inner = opened.pop()?;
    if inner != g {
        return None;
    }
    if more {
        opened.push(inner)?;
    }
    Some(())
}

// Whether no groups cross, by going over a table with the groups that are open.
fn nested(table: &[Crossing]) -> bool
    requires { length table.now ≤ 60 }
    ensures { result ≡ nests 0 (Some []) (firsts table.now) }
{
    let firsts = first_records(table);
    let firsts = &firsts[..table.len()];
    let lasts = last_records(firsts);
    let mut opened = Row::over([0; 60]);
    for (k, g) in firsts.iter().enumerate() {
        let more = goes_on(firsts, &lasts, k);
        let Some(()) = turn(&mut opened, k, *g, more) else {
            return false;
        };
    }
    true
}

// Whether no groups of a table cross.
fn uncrossed(table: &[Crossing]) -> bool
    requires { length table.now ≤ 60 }
    ensures { Decides result (Uncrossed table.now) }
{
    nested(table)
}

// Whether the roads never fall.
fn never_falls(table: &[Crossing]) -> bool
    ensures { Decides result ((i : ℕ) → i + 1 < length table.now → (at table.now i).road ≤ (at table.now (i + 1)).road) }
{
    table.windows(2).all(|w| w[0].road <= w[1].road)
}

// Whether the roads are 0 to 3.
fn known_roads(table: &[Crossing]) -> bool
    ensures { Decides result ((i : ℕ) → i < length table.now → (at table.now i).road ≤ 3) }
{
    table.iter().all(|c| c.road <= 3)
}

// Whether the roads are 0 to 3 and never fall.
fn rising(table: &[Crossing]) -> bool
    ensures { Decides result (Rising table.now) }
{
    known_roads(table) && never_falls(table)
}

// Whether the first record of the group g has the flag.
fn begins_with(table: &[Crossing], g: u16, vertex: bool) -> bool
    ensures { Decides result ((first_of g table.now < length table.now) × ((at table.now (first_of g table.now)).vertex ≡ vertex)) }
{
    table
        .get(first_record(table, g))
        .is_some_and(|c| c.vertex == vertex)
}

// Whether the flags of each group agree.
fn flagged(table: &[Crossing]) -> bool
    ensures { Decides result (Flagged table.now) }
{
    table.iter().all(|c| begins_with(table, c.group, c.vertex))
}

// Whether each group without a vertex has two records.
fn paired(table: &[Crossing]) -> bool
    ensures { Decides result (Paired table.now) }
{
    table.iter().all(|c| c.vertex || size(table, c.group) == 2)
}

// Whether a table means a drawing, or the first rule that it breaks.
pub(crate) fn judge(table: &[Crossing]) -> Result<(), Refusal>
    ensures { Judged table.now result }
{
    if table.len() > 60 {
        return Err(Refusal::Roads);
    }
    if !rising(table) {
        return Err(Refusal::Roads);
    }
    if !flagged(table) {
        return Err(Refusal::Flags);
    }
    if !paired(table) {
        return Err(Refusal::Pairs);
    }
    if !uncrossed(table) {
        return Err(Refusal::Crossed);
    }
    Ok(())
}
