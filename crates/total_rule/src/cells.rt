// What is known of cells, in arrays of a byte for each cell of the board: 1 where some layout of the total has it so, 0 where none has, and 2 for a cell of no
// block, of which the inside cells are told last. What is the same in every layout is what no layout has the other way.
ghost use Rattle.std.specs.Prelude.{◌≡◌, true, ◌&&◌, ℕ, ◌+◌, ◌≤◌, ◌<◌, eqb, ltb, length, get_or};
ghost use Rattle.lists.specs.Lists.{range, keep, all};
ghost use Rattle.fitting.specs.Equations.{is_closed};
ghost use Rattle.marks.specs.CellLists.{cell_list};
ghost use Rattle.total_rule.specs.Cells.{Copied, Told, Filled};

use grid::window::wide;
use marks::listing::CellList;

// The first `many` numbers of a set go to `counts`, from place `at` on.
pub fn put_counts(reached: &[u8; 1025], many: usize, counts: &mut [u8; 2048], at: usize)
    requires { (many ≤ 1025) × (at + many ≤ 2048) }
    ensures { Copied reached.now many at counts.old counts.new }
{
    counts[at..at + many].copy_from_slice(&reached[..many]);
}

// Cells are told what is marked of their groups.
pub fn tell_cells(
    cells: &[u16],
    group_of: &[u16; 1024],
    by_group: &[u8; 1024],
    told: &mut [u8; 1024],
)
    requires below { all (λ c. ltb c 1024) cells.now ≡ true }
    requires by_index { (c : ℕ) → get_or group_of.now c 0 < 1024 }
    ensures { Told cells.now (λ c. get_or by_group.now (get_or group_of.now c 0) 0) told.old told.new }
{
    for &cell in cells {
        let c = wide(cell);
        told[c] = by_group[wide(group_of[c])];
    }
}

// The cells of no block are told.
pub fn tell_inside(told: &mut [u8; 1024], inside: u8)
    ensures { Filled inside told.old told.new }
{
    for mark in told.iter_mut() {
        if *mark == 2 {
            *mark = inside;
        }
    }
}

// The closed cells that no layout has so, in reading order.
pub fn list_never(position: &[u8], told: &[u8; 1024]) -> CellList
    requires { length position.now ≤ 1024 }
    ensures { result ≡ cell_list (keep (λ c. is_closed position.now c && eqb (get_or told.now c 0) 0) (range 0 (length position.now))) }
{
    let mut cells = [0u16; 1024];
    let mut count = 0;
    for (c, &shown) in position.iter().enumerate() {
        if shown == 10 && told[c] == 0 {
            cells[count] = c as u16;
            count += 1;
        }
    }
    CellList { cells, count }
}
