// What is left of blocks once cells are known: the known cells go, a remainder falls by the mines among them. After subtraction a block that has no cell
// left is dropped; after the direct rule's sweeps an equation with no mine left goes.
ghost use Rattle.std.specs.Prelude.{◌≡◌, ◌++◌, map, ℕ, ◌+◌, ◌-◌, ◌*◌, ◌≤◌, ◌<◌, eqb, ltb, length, get_or, take};
ghost use Rattle.std.proofs.lemmas.List.Edits.{sets};
ghost use Rattle.lists.specs.Lists.{range, keep, count, any, joined};
ghost use Rattle.grid.specs.Window.{listed};
ghost use Rattle.blocks.specs.Blocks.{BlockEquation};
ghost use Rattle.blocks.specs.BlockSets.{block_set, blocks_of, slots_of, Whole};
ghost use Rattle.blocks.specs.Places.{marked, OnBoard, Slots, Stands, Room, equations_from, block_between};
ghost use Rattle.marks.specs.Marked.{stays, left_equations, left_block, left_blocks};

use super::count_marked;
use super::listing::list_cells;
use blocks::{BlockSet, Bounds, empty_set, put_slots, slots_at};
use grid::window::{UpToEight, wide};

// The byte of a remainder 0: remainders are kept plus 8, so that one less than 0 is a byte too.
pub const ZERO_REST: u8 = 8;

// The cells of a list that are not known.
fn left_list(list: UpToEight, known: &[u8; 1024]) -> UpToEight
    requires { OnBoard list }
    ensures { result ≡ listed (keep (λ c. eqb (get_or known.now c 0) 0) (take list.len list.cells)) }
{
    let mut cells = [0u16; 8];
    let mut len = 0;
    for &cell in list.as_slice() {
        if known[wide(cell)] == 0 {
            cells[len] = cell;
            len += 1;
        }
    }
    UpToEight { cells, len }
}

// A remainder less the mines among an equation's cells. No remainder plus 8 of a frontier is below its number of cells, so there 0 never stands in for less.
fn left_rest(rest: u8, mines: &[u8; 1024], list: UpToEight) -> u8
    requires { OnBoard list }
    ensures { result ≡ rest - count (marked mines.now) (take list.len list.cells) }
{
    rest.saturating_sub(count_marked(mines, list) as u8)
}

// Does an equation stay, by its remainder?
fn rest_stays(subtracted: bool, rest: u8) -> bool
    ensures { (e : BlockEquation) → e.rest ≡ rest → result ≡ stays subtracted e }
{
    subtracted || rest != ZERO_REST
}

// What is known of cells: the mines, and all known cells, each marked; and whether subtraction found them.
#[derive(Drop)]
pub struct Known {
    pub mines: [u8; 1024],
    pub cells: [u8; 1024],
    pub subtracted: bool,
}

// The equations between two places that stay go to `out_slots` and their remainders to `out_rests`, from place `at` on; the answer is the place behind them.
pub fn left_equations(
    set: &BlockSet,
    first: usize,
    end: usize,
    known: &Known,
    out_slots: &mut [u16; 8192],
    out_rests: &mut [u8; 1024],
    at: usize,
) -> usize
    requires slots { Slots set.now.slots end }
    requires room { at + length (left_equations known.now.subtracted known.now.mines known.now.cells (equations_from set.now.slots set.now.rests first end)) ≤ 1024 }
    ensures value { result ≡ at + length (left_equations known.now.subtracted known.now.mines known.now.cells (equations_from set.now.slots set.now.rests first end)) }
    ensures slots_after { out_slots.new ≡ sets out_slots.old (at * 8) (joined (map slots_of (left_equations known.now.subtracted known.now.mines known.now.cells (equations_from set.now.slots set.now.rests first end)))) }
    ensures rests_after { out_rests.new ≡ sets out_rests.old at (map (λ (e : BlockEquation). e.rest) (left_equations known.now.subtracted known.now.mines known.now.cells (equations_from set.now.slots set.now.rests first end))) }
{
    let mut k = at;
    for e in first..end {
        let list = slots_at(&set.slots, e);
        let rest = left_rest(set.rests[e], &known.mines, list);
        if rest_stays(known.subtracted, rest) {
            put_slots(out_slots, k, left_list(list, &known.cells));
            out_rests[k] = rest;
            k += 1;
        }
    }
    k
}

// What is left of a block goes to the end of a set; after subtraction nothing does where no cell is left.
fn put_left(set: &BlockSet, bounds: Bounds, known: &Known, mut out: BlockSet) -> BlockSet
    requires arrays { Stands set.now bounds }
    requires room { Room out (left_block known.now.subtracted known.now.mines known.now.cells (block_between set.now bounds)) }
    ensures { result ≡ block_set (blocks_of out ++ left_block known.now.subtracted known.now.mines known.now.cells (block_between set.now bounds)) }
{
    let k = out.next_cell();
    let last = list_cells(
        &set.cells,
        bounds.first_cell,
        bounds.end_cell,
        &known.cells,
        0,
        &mut out.cells,
        k,
    );
    if known.subtracted {
        if last == k {
            return out;
        }
    }
    let e = out.next_equation();
    let next = left_equations(
        set,
        bounds.first_equation,
        bounds.end_equation,
        known,
        &mut out.slots,
        &mut out.rests,
        e,
    );
    out.end_block(last, next);
    out
}

// What is left of all blocks of a set.
pub fn left_blocks(set: BlockSet, known: &Known) -> BlockSet
    requires { Whole set }
    ensures value { result ≡ block_set (left_blocks known.now.subtracted known.now.mines known.now.cells (blocks_of set)) }
    ensures whole { Whole result }
{
    let mut out = empty_set();
    for b in 0..set.blocks {
        out = put_left(&set, set.bounds_at(b), known, out);
    }
    out
}

// Is one of these remainders negative?
pub fn has_negative(rests: &[u8]) -> bool
    ensures { result ≡ any (λ r. ltb r 8) rests.now }
{
    rests.iter().any(|&rest| rest < ZERO_REST)
}
