// The groups of a table.
ghost use Rattle.std.specs.Prelude.{◌≡◌, ℕ, ◌+◌, ◌<◌, ◌≤◌, ◌≢◌, length, take, drop, slice_index, MatchOption};
ghost use Rattle.rules.specs.Tables.{at, first_of, size_of};
ghost use Rattle.tables.specs.Nests.{firsts, within, Lasts};

use symbols::Crossing;

// The first record of the group g.
fn find_group(table: &[Crossing], g: u16) -> Option<usize>
    ensures { MatchOption result ((k : ℕ) → k < length table.now → (at table.now k).group ≢ g)
        (λ i. (i < length table.now) × ((at table.now i).group ≡ g) × ((k : ℕ) → k < i → (at table.now k).group ≢ g)) }
{
    table.iter().position(|c| c.group == g)
}

// The number of the first record of the group g; the table's length where it has none.
pub(crate) fn first_record(table: &[Crossing], g: u16) -> usize
    ensures { result ≡ first_of g table.now }
{
    find_group(table, g).unwrap_or(table.len())
}

// How many records the group g has. A loop: by `filter` and `count`, building took a fifth more time.
pub(crate) fn size(table: &[Crossing], g: u16) -> usize
    ensures { result ≡ size_of g table.now }
{
    let mut n = 0;
    for c in table {
        n += usize::from(c.group == g);
    }
    n
}

// The first record of its group, for each record, in front. An array, since it is filled as fast as it can be: pushing each
// onto a row took a tenth more of building.
pub(crate) fn first_records(table: &[Crossing]) -> [u8; 60]
    requires { length table.now ≤ 60 }
    ensures { take (length table.now) result ≡ firsts table.now }
{
    let mut firsts = [0; 60];
    for (k, c) in table.iter().enumerate() {
        firsts[k] = first_record(table, c.group) as u8;
    }
    firsts
}

// The last record of each group, at the number of its first.
pub(crate) fn last_records(firsts: &[u8]) -> [u8; 60]
    requires { (length firsts.now ≤ 60) × ((k : ℕ) → k < length firsts.now → slice_index firsts.now k ≤ k) }
    ensures { Lasts firsts.now result (length firsts.now) }
{
    let mut lasts = [0; 60];
    for (k, g) in firsts.iter().enumerate() {
        lasts[usize::from(*g)] = k as u8;
    }
    lasts
}

// Whether another record of its group follows the record k, by the first and the last records.
pub(crate) fn goes_on(firsts: &[u8], lasts: &[u8; 60], k: usize) -> bool
    requires { (k < length firsts.now) × (slice_index firsts.now k < 60) × (Lasts firsts.now lasts.now (length firsts.now)) }
    ensures { result ≡ within (slice_index firsts.now k) (drop (k + 1) firsts.now) }
{
    let g = usize::from(firsts[k]);
    k < usize::from(lasts[g])
}
