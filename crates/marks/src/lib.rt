// Cells marked in arrays of bytes: 1 for a cell that is found, 0 for any other. `listing` has lists of cells with their counts and lists the cells of blocks by
// their marks, `left` writes what is left of blocks without the marked cells; `write_at_cells` writes a value at the cells of a list. specs/Marked.antt,
// specs/CellLists.antt and specs/Written.antt say what these functions are told and tell.
#![tactic(auto)]

pub mod left;
pub mod listing;

ghost use Rattle.std.specs.Prelude.{◌≡◌, true, ◌||◌, ℕ, ◌≤◌, ◌<◌, ltb, length, get_or, take};
ghost use Rattle.lists.specs.Lists.{all, bit, count};
ghost use Rattle.blocks.specs.Places.{marked, OnBoard};
ghost use Rattle.marks.specs.Written.{written};

use grid::window::{UpToEight, wide};

// How many cells of a list are marked.
pub fn count_marked(marks: &[u8; 1024], list: UpToEight) -> usize
    requires { OnBoard list }
    ensures { result ≡ count (marked marks.now) (take list.len list.cells) }
{
    let mut found = 0;
    for &cell in list.as_slice() {
        if marks[wide(cell)] == 1 {
            found += 1;
        }
    }
    found
}

// The cells that one of two arrays has marked.
pub fn marked_in_one(mines: &[u8; 1024], safe: &[u8; 1024]) -> [u8; 1024]
    ensures { (d : ℕ) → d < 1024 → get_or result d 0 ≡ bit (marked mines.now d || marked safe.now d) }
{
    let mut known = [0u8; 1024];
    for c in 0..1024 {
        known[c] = u8::from(mines[c] == 1 || safe[c] == 1);
    }
    known
}

// Writes a value at each of these cells.
pub fn write_at_cells(cells: &[u16], value: u8, position: &mut [u8])
    requires { all (λ c. ltb c (length position.old)) cells.now ≡ true }
    ensures { position.new ≡ written value cells.now position.old }
{
    for &cell in cells {
        position[wide(cell)] = value;
    }
}
