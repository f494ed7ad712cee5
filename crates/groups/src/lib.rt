// combine: the cells of a block that the same equations have form a group. A cell's column, the places of the equations that have it, is gathered in eight
// slots; then each cell, in the block's order, joins the first group whose first cell has an equal column, or begins a group. What the search needs is kept
// by group: its size, its column; and by equation: what it needs, and how many cells it has.
#![tactic(auto)]

ghost use Rattle.std.specs.Prelude.{◌≡◌, true, [], ◌∷◌, ◌++◌, map, ℕ, ◌-◌, ◌*◌, ◌≤◌, ◌<◌, leb, ltb, length, replicate, unwrap_or, IfSome};
ghost use Rattle.std.specs.List.{list_any};
ghost use Rattle.std.proofs.lemmas.List.Edits.{sets};
ghost use Rattle.lists.specs.Lists.{any, all, count, nodup, first_place, joined, pad};
ghost use Rattle.blocks.specs.Blocks.{BlockEquation};
ghost use Rattle.blocks.specs.BlockSets.{slot_cells};
ghost use Rattle.blocks.specs.Places.{cells_in, OnBoard, Slots, Stands, equations_between, block_between};
ghost use Rattle.groups.specs.Grouping.{Combinable, grouped};
ghost use Rattle.groups.specs.Combining.{ColumnsAre, column_in, column_with, alike_by, GroupsAre};

use blocks::{BlockSet, Bounds, NO_CELL, put_slots, slots_at};
use grid::window::{UpToEight, wide};

// A block over its groups. Slots past the counts are 0, or 65535 where a place could stand.
#[derive(Drop)]
pub struct Grouped {
    // How many groups there are, and how many equations.
    pub groups: usize,
    pub equations: usize,
    // For each group its first cell, how many cells it has, and in eight slots the places of its equations.
    pub firsts: [u16; 1024],
    pub sizes: [u8; 1024],
    pub columns: [u16; 8192],
    // For each cell of the board its group; 0 for a cell that the block hasn't.
    pub group_of: [u16; 1024],
    // For each equation its remainder, 0 if that is negative, and how many cells it has.
    pub needs: [u8; 1024],
    pub rooms: [u8; 1024],
    // Is a remainder negative?
    pub negative: bool,
}

// Puts a number behind those in the eight slots at a place.
fn push_slot(slots: &mut [u16; 8192], place: usize, number: u16)
    requires { (place < 1024) × (length (slot_cells slots.old place) < 8) }
    ensures { slots.new ≡ sets slots.old (place * 8) (pad 8 65535 (slot_cells slots.old place ++ (number ∷ []))) }
{
    let mut list = slots_at(slots, place);
    list.push(number);
    put_slots(slots, place, list);
}

// Puts the place of an equation behind the columns of its cells.
fn push_equation(list: UpToEight, place: u16, columns: &mut [u16; 8192])
    requires on_board { OnBoard list × (nodup (cells_in list) ≡ true) × (place < 1024) }
    requires slots { Slots columns.old 1024 }
    requires list_value { all (λ c. ltb (length (slot_cells columns.old c)) 8) (cells_in list) ≡ true }
    ensures { ColumnsAre columns.new (column_with columns.old (cells_in list) place) }
{
    for &cell in list.as_slice() {
        push_slot(columns, wide(cell), place);
    }
}

// The columns of the cells of a block, by cell.
fn fill_columns(set: &BlockSet, bounds: Bounds, columns: &mut [u16; 8192])
    requires slots { Slots set.now.slots bounds.end_equation × (bounds.first_equation ≤ bounds.end_equation) × (columns.old ≡ replicate 8192 65535) }
    requires by_index { (e : ℕ) → bounds.first_equation ≤ e → e < bounds.end_equation → nodup (slot_cells set.now.slots e) ≡ true }
    requires by_index_2 { (c : ℕ) → length (column_in set.now.slots bounds.first_equation (bounds.end_equation - bounds.first_equation) c) ≤ 8 }
    ensures { ColumnsAre columns.new (column_in set.now.slots bounds.first_equation (bounds.end_equation - bounds.first_equation)) }
{
    let first = bounds.first_equation;
    for e in first..bounds.end_equation {
        push_equation(slots_at(&set.slots, e), (e - first) as u16, columns);
    }
}

// Are the columns of two cells equal? The first slots that differ decide, or the first empty ones: mostly the first of all.
fn same_columns(columns: &[u16; 8192], a: usize, b: usize) -> bool
    requires { (a < 1024) × (b < 1024) }
    ensures { result ≡ alike_by columns.now a b }
{
    let left = &columns[a * 8..a * 8 + 8];
    let right = &columns[b * 8..b * 8 + 8];
    for (&own, &other) in left.iter().zip(right) {
        if own != other {
            return false;
        }
        if own == NO_CELL {
            return true;
        }
    }
    true
}

// The place of the first of some cells whose column equals that of a cell.
fn first_alike(columns: &[u16; 8192], firsts: &[u16], cell: usize) -> Option<usize>
    requires { (all (λ c. ltb c 1024) firsts.now ≡ true) × (cell < 1024) }
    ensures place { unwrap_or result (length firsts.now) ≡ first_place (alike_by columns.now cell) firsts.now }
    ensures inside { IfSome result (λ g. g < length firsts.now) }
{
    for (g, &first) in firsts.iter().enumerate() {
        if same_columns(columns, cell, wide(first)) {
            return Some(g);
        }
    }
    None
}

// The groups of some cells: their first cells, their sizes, and the group of each cell.
fn fill_groups(
    cells: &[u16],
    columns: &[u16; 8192],
    firsts: &mut [u16; 1024],
    sizes: &mut [u8; 1024],
    group_of: &mut [u16; 1024],
) -> usize
    requires cells { (all (λ c. ltb c 1024) cells.now ≡ true) × (length cells.now ≤ 1024) }
    requires firsts_value { (firsts.old ≡ replicate 1024 0) × (sizes.old ≡ replicate 1024 0) × (group_of.old ≡ replicate 1024 0) }
    requires few_alike { all (λ c. leb (count (alike_by columns.now c) cells.now) 8) cells.now ≡ true }
    ensures { GroupsAre (alike_by columns.now) cells.now result firsts.new sizes.new group_of.new }
{
    let mut n = 0;
    for &cell in cells {
        let c = wide(cell);
        let g = match first_alike(columns, &firsts[..n], c) {
            Some(found) => found,
            None => {
                firsts[n] = cell;
                n += 1;
                n - 1
            }
        };
        sizes[g] += 1;
        group_of[c] = g as u16;
    }
    n
}

// The columns of some groups: those of their first cells.
fn copy_columns(columns: &[u16; 8192], firsts: &[u16], out: &mut [u16; 8192])
    requires { (all (λ c. ltb c 1024) firsts.now ≡ true) × (length firsts.now ≤ 1024) }
    ensures { out.new ≡ sets out.old 0 (joined (map (λ (c : ℕ). pad 8 65535 (slot_cells columns.now c)) firsts.now)) }
{
    for (g, &first) in firsts.iter().enumerate() {
        put_slots(out, g, slots_at(columns, wide(first)));
    }
}

// What each equation of a block needs, and how many cells it has.
fn fill_needs(set: &BlockSet, bounds: Bounds, needs: &mut [u8; 1024], rooms: &mut [u8; 1024])
    requires slots { Slots set.now.slots bounds.end_equation × (bounds.first_equation ≤ bounds.end_equation) }
    requires needs_value { (needs.old ≡ replicate 1024 0) × (rooms.old ≡ replicate 1024 0) }
    ensures needs_after { needs.new ≡ pad 1024 0 (map (λ (e : BlockEquation). e.rest - 8) (equations_between set.now bounds)) }
    ensures rooms_after { rooms.new ≡ pad 1024 0 (map (λ (e : BlockEquation). length e.cells) (equations_between set.now bounds)) }
{
    let first = bounds.first_equation;
    for e in first..bounds.end_equation {
        needs[e - first] = set.rests[e].saturating_sub(8);
        rooms[e - first] = slots_at(&set.slots, e).len as u8;
    }
}

// Is a remainder negative?
fn has_negative(rests: &[u8]) -> bool
    ensures { result ≡ list_any (λ r. ltb r 8) rests.now }
{
    rests.iter().any(|&rest| rest < 8)
}

// combine, of the block between these bounds.
pub fn combine(set: &BlockSet, bounds: Bounds) -> Grouped
    requires arrays { Stands set.now bounds }
    requires combinable { Combinable (block_between set.now bounds) }
    ensures { result ≡ grouped (block_between set.now bounds) }
{
    let mut by_cell = [NO_CELL; 8192];
    fill_columns(set, bounds, &mut by_cell);
    let mut firsts = [0u16; 1024];
    let mut sizes = [0u8; 1024];
    let mut group_of = [0u16; 1024];
    let cells = set.cells_of(bounds);
    let groups = fill_groups(cells, &by_cell, &mut firsts, &mut sizes, &mut group_of);
    let mut columns = [NO_CELL; 8192];
    copy_columns(&by_cell, &firsts[..groups], &mut columns);
    let mut needs = [0u8; 1024];
    let mut rooms = [0u8; 1024];
    fill_needs(set, bounds, &mut needs, &mut rooms);
    Grouped {
        groups,
        equations: bounds.end_equation - bounds.first_equation,
        firsts,
        sizes,
        columns,
        group_of,
        needs,
        rooms,
        negative: has_negative(&set.rests[bounds.first_equation..bounds.end_equation]),
    }
}
