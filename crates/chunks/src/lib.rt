// chunk_matrix and chunk_matrixes: the blocks of a set split anew into connected parts, blocks from the last to the first, in the Rust's order.
// A part is found by marking: its first cell, then the cells of each equation that has a marked cell, until a look at all equations marks nothing new.
#![tactic(auto)]

ghost use Rattle.std.specs.Prelude.{◌≡◌, true, ◌&&◌, ◌||◌, List, [], ◌∷◌, ◌++◌, map, reverse, ℕ, ◌+◌, ◌-◌, ◌*◌, ◌≤◌, ◌<◌, ltb, length, get_or, take};
ghost use Rattle.std.proofs.lemmas.List.Edits.{sets};
ghost use Rattle.lists.specs.Lists.{all, has, keep, empty, joined, pad, add_new};
ghost use Rattle.grid.specs.Window.{listed};
ghost use Rattle.blocks.specs.Blocks.{BlockEquation};
ghost use Rattle.blocks.specs.BlockSets.{block_set, blocks_of, slot_cells, Whole};
ghost use Rattle.blocks.specs.Places.{marked, cells_in, Marks, OnBoard, Slots, Stands, Room, equations_between, block_between};
ghost use Rattle.chunks.specs.Chunks.{widened, connected, alone, chunk_matrix, chunk_matrixes};
ghost use Rattle.chunks.specs.Splitting.{Changed, places_shown, part_shown, all_parts, bare};

use blocks::{BlockSet, Bounds, NO_CELL, empty_set, meets_marks, put_slots, slots_at};
use grid::window::{UpToEight, wide};

// Marks the cells of a list; was one not marked before?
fn mark_all(marks: &mut [u8; 1024], list: UpToEight) -> bool
    requires { OnBoard list }
    ensures { Changed (λ (l : List ℕ). add_new l (cells_in list)) marks.old marks.new result }
{
    let mut new = false;
    for &cell in list.as_slice() {
        let c = wide(cell);
        if marks[c] != 1 {
            new = true;
            marks[c] = 1;
        }
    }
    new
}

// One look at each equation of a block in turn: one that has a marked cell marks its cells. Was one not marked before?
fn widen(set: &BlockSet, bounds: Bounds, marks: &mut [u8; 1024]) -> bool
    requires { Slots set.now.slots bounds.end_equation }
    ensures { Changed (widened (equations_between set.now bounds)) marks.old marks.new result }
{
    let mut new = false;
    for e in bounds.first_equation..bounds.end_equation {
        let list = slots_at(&set.slots, e);
        if meets_marks(marks, list) {
            if mark_all(marks, list) {
                new = true;
            }
        }
    }
    new
}

// 1 at each cell that the equations of a block connect with c, 0 elsewhere.
fn connected_with(set: &BlockSet, bounds: Bounds, c: usize) -> [u8; 1024]
    requires slots { Slots set.now.slots bounds.end_equation }
    requires c_bound { c < 1024 }
    ensures { Marks result (connected (equations_between set.now bounds) (bounds.end_equation - bounds.first_equation) (c ∷ [])) }
{
    let mut marks = [0u8; 1024];
    marks[c] = 1;
    for _look in bounds.first_equation..bounds.end_equation {
        if !widen(set, bounds, &mut marks) {
            break;
        }
    }
    marks
}

// The marked cells of a list, from the last to the first, go to `out` from place `at` on.
fn put_cells(marks: &[u8; 1024], cells: &[u16], out: &mut [u16; 1024], at: usize) -> usize
    requires below { all (λ c. ltb c 1024) cells.now ≡ true }
    requires end_bound { at + length (reverse (keep (marked marks.now) cells.now)) ≤ 1024 }
    ensures value { result ≡ at + length (reverse (keep (marked marks.now) cells.now)) }
    ensures out_after { out.new ≡ sets out.old at (reverse (keep (marked marks.now) cells.now)) }
{
    let mut k = at;
    for &cell in cells.iter().rev() {
        if marks[wide(cell)] == 1 {
            out[k] = cell;
            k += 1;
        }
    }
    k
}

// A list turned round.
fn reversed(list: UpToEight) -> UpToEight
    requires { (list.len ≤ 8) × (list ≡ listed (cells_in list)) }
    ensures { result ≡ listed (reverse (cells_in list)) }
{
    let len = list.len;
    let mut cells = list.cells;
    cells[..len].reverse();
    UpToEight { cells, len }
}

// The equations of a block that have a marked cell, from the last to the first, turned round, and their remainders go behind those of a set, from place
// `at` on.
fn put_equations(
    marks: &[u8; 1024],
    set: &BlockSet,
    bounds: Bounds,
    slots: &mut [u16; 8192],
    rests: &mut [u8; 1024],
    at: usize,
) -> usize
    requires slots { Slots set.now.slots bounds.end_equation }
    requires end_bound { at + length (places_shown marks.now set.now bounds) ≤ 1024 }
    ensures value { result ≡ at + length (places_shown marks.now set.now bounds) }
    ensures slots_after { slots.new ≡ sets slots.old (at * 8) (joined (map (λ (e : ℕ). pad 8 65535 (reverse (slot_cells set.now.slots e))) (places_shown marks.now set.now bounds))) }
    ensures rests_after { rests.new ≡ sets rests.old at (map (λ (e : ℕ). get_or set.now.rests e 0) (places_shown marks.now set.now bounds)) }
{
    let mut k = at;
    for e in (bounds.first_equation..bounds.end_equation).rev() {
        let list = slots_at(&set.slots, e);
        if meets_marks(marks, list) {
            put_slots(slots, k, reversed(list));
            rests[k] = set.rests[e];
            k += 1;
        }
    }
    k
}

// The part of a block that has the marked cells goes to the end of a set; one without an equation does not.
fn put_part(marks: &[u8; 1024], set: &BlockSet, bounds: Bounds, mut out: BlockSet) -> BlockSet
    requires stands { Stands set.now bounds × (bounds.first_cell ≤ bounds.end_cell) }
    requires room { Room out (part_shown marks.now set.now bounds) }
    ensures { result ≡ block_set (blocks_of out ++ part_shown marks.now set.now bounds) }
{
    let first = out.next_equation();
    let end = put_equations(marks, set, bounds, &mut out.slots, &mut out.rests, first);
    if end == first {
        return out;
    }
    let first_cell = out.next_cell();
    let end_cell = put_cells(marks, set.cells_of(bounds), &mut out.cells, first_cell);
    out.end_block(end_cell, end);
    out
}

// The marked ones of some cells are done.
fn add_done(marks: &[u8; 1024], cells: &[u16], done: &mut [u8; 1024])
    requires { all (λ c. ltb c 1024) cells.now ≡ true }
    ensures { (d : ℕ) → marked done.new d ≡ (marked done.old d || (marked marks.now d && has cells.now d)) }
{
    for &cell in cells {
        let c = wide(cell);
        if marks[c] == 1 {
            done[c] = 1;
        }
    }
}

// The parts of a block go to the end of a set, by their first cell.
fn put_parts(set: &BlockSet, bounds: Bounds, mut out: BlockSet) -> BlockSet
    requires stands { Stands set.now bounds × (bounds.first_cell ≤ bounds.end_cell) }
    requires room { Room out (all_parts (block_between set.now bounds)) }
    ensures { result ≡ block_set (blocks_of out ++ all_parts (block_between set.now bounds)) }
{
    let mut done = [0u8; 1024];
    let cells = set.cells_of(bounds);
    for &cell in cells {
        let c = wide(cell);
        if done[c] != 1 {
            let marks = connected_with(set, bounds, c);
            out = put_part(&marks, set, bounds, out);
            add_done(&marks, cells, &mut done);
        }
    }
    out
}

// An equation without cells goes to the end of a set as a block of its own.
fn put_bare(rest: u8, mut out: BlockSet) -> BlockSet
    requires { Room out (alone (bare rest) ∷ []) }
    ensures { result ≡ block_set (blocks_of out ++ (alone (bare rest) ∷ [])) }
{
    let e = out.next_equation();
    let end_cell = out.next_cell();
    out.rests[e] = rest;
    out.end_block(end_cell, e + 1);
    out
}

// Each equation of a block that has no cell goes to the end of a set.
fn put_alone(set: &BlockSet, bounds: Bounds, mut out: BlockSet) -> BlockSet
    requires slots { Slots set.now.slots bounds.end_equation }
    requires room { Room out (map alone (keep (λ (e : BlockEquation). empty e.cells) (equations_between set.now bounds))) }
    ensures { result ≡ block_set (blocks_of out ++ map alone (keep (λ (e : BlockEquation). empty e.cells) (equations_between set.now bounds))) }
{
    for e in bounds.first_equation..bounds.end_equation {
        if set.slots[e * 8] == NO_CELL {
            out = put_bare(set.rests[e], out);
        }
    }
    out
}

// chunk_matrix: the parts, then the equations without cells; nothing of a block without cells.
fn chunk_matrix(set: &BlockSet, bounds: Bounds, out: BlockSet) -> BlockSet
    requires stands { Stands set.now bounds × (bounds.first_cell ≤ bounds.end_cell) }
    requires room { Room out (chunk_matrix (block_between set.now bounds)) }
    ensures { result ≡ block_set (blocks_of out ++ chunk_matrix (block_between set.now bounds)) }
{
    if bounds.first_cell == bounds.end_cell {
        return out;
    }
    put_alone(set, bounds, put_parts(set, bounds, out))
}

// chunk_matrixes: the blocks of a set from the last to the first, each split anew.
pub fn chunk_matrixes(set: BlockSet) -> BlockSet
    requires { Whole set }
    ensures value { result ≡ block_set (chunk_matrixes (blocks_of set)) }
    ensures whole { Whole result }
{
    let mut out = empty_set();
    for b in (0..set.blocks).rev() {
        out = chunk_matrix(&set, set.bounds_at(b), out);
    }
    out
}
