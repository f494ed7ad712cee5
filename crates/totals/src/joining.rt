// The counts of mines that blocks may have, joined: which numbers a count of each can add up to. A set of counts is kept in an array of bytes, 1 for a number
// of the set and 0 for any other; the sets of the blocks stand one after another in one array, each with a place more than its block has cells.
ghost use Rattle.std.specs.Prelude.{◌≡◌, true, ◌&&◌, [], ◌∷◌, ℕ, ◌+◌, ◌-◌, ◌≤◌, ◌<◌, leb, eqb, length, get_or};
ghost use Rattle.counting.specs.Counting.{Marked};
ghost use Rattle.totals.specs.Totals.{up_to};
ghost use Rattle.totals.specs.Joining.{holds, counts_at, counts_but, EndsInOrder, SumsAre, Joined, raised};

use blocks::BlockSet;

// One number more: what a set has, raised by t, goes to another, up to `rest`.
fn add_count(before: &[u8; 1025], t: usize, rest: usize, after: &mut [u8; 1025])
    requires { (t ≤ rest) × (rest ≤ 1024) }
    ensures { Marked (raised before.now t (rest + 1)) after.old after.new }
{
    for n in t..rest + 1 {
        if before[n - t] == 1 {
            after[n] = 1;
        }
    }
}

// The sums of a set and another, up to `rest`.
fn join(set: &[u8], rest: usize, before: [u8; 1025]) -> [u8; 1025]
    requires { rest ≤ 1024 }
    ensures { Joined rest set.now before result }
{
    let mut after = [0u8; 1025];
    for (t, &has) in set.iter().enumerate() {
        if has == 1 && t <= rest {
            add_count(&before, t, rest, &mut after);
        }
    }
    after
}

// The counts of k cells that nothing ties: 0 to k.
fn counts_up_to(k: usize) -> [u8; 1025]
    requires { k ≤ 1024 }
    ensures { SumsAre 1024 (up_to k ∷ []) result }
{
    let mut counts = [0u8; 1025];
    counts[..k + 1].fill(1);
    counts
}

// The counts of block j.
pub fn counts_of<'a>(set: &BlockSet, counts: &'a [u8; 2048], j: usize) -> &'a [u8]
    requires { EndsInOrder set.now.cell_ends set.now.blocks × (j < set.now.blocks) }
    ensures held { (t : ℕ) → holds result.now t ≡ counts_at counts.now set.now.cell_ends j t }
    ensures few { length result.now ≤ 1025 }
{
    let bounds = set.bounds_at(j);
    &counts[bounds.first_cell + j..bounds.end_cell + j + 1]
}

// The sums of what so many free cells and the blocks but one can hold, up to `rest`.
pub fn sums_but(
    set: &BlockSet,
    counts: &[u8; 2048],
    but: usize,
    free: usize,
    rest: usize,
) -> [u8; 1025]
    requires { EndsInOrder set.now.cell_ends set.now.blocks × (free ≤ 1024) × (rest ≤ 1024) }
    ensures { SumsAre rest (up_to free ∷ counts_but counts.now set.now.cell_ends but set.now.blocks) result }
{
    let mut sums = counts_up_to(free);
    for j in 0..set.blocks {
        if j != but {
            let more = join(counts_of(set, counts, j), rest, sums);
            sums = more;
        }
    }
    sums
}

// What a block may hold where the others hold the rest: t is allowed where they can hold rest - t.
pub fn allowed_counts(sums: &[u8; 1025], rest: usize) -> [u8; 1025]
    requires { rest ≤ 1024 }
    ensures { (length result ≡ 1025) × ((t : ℕ) → eqb (get_or result t 0) 1 ≡ (leb t rest && eqb (get_or sums.now (rest - t) 0) 1)) }
{
    let mut allowed = [0u8; 1025];
    allowed[..rest + 1].copy_from_slice(&sums[..rest + 1]);
    allowed[..rest + 1].reverse();
    allowed
}

// Is every number of a set allowed?
pub fn all_allowed(set: &[u8], allowed: &[u8; 1025]) -> bool
    requires { length set.now ≤ 1025 }
    ensures { result ≡ true → (t : ℕ) → holds set.now t ≡ true → holds allowed.now t ≡ true }
{
    for (t, &has) in set.iter().enumerate() {
        if has == 1 && allowed[t] != 1 {
            return false;
        }
    }
    true
}
