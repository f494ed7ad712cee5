// inside_cell and is_minenum: the closed cells that touch no open one, and the known mines.
ghost use Rattle.std.specs.Prelude.{◌≡◌, not, ◌+◌, ◌*◌, ◌≤◌, leb, length};
ghost use Rattle.lists.specs.Lists.{any};
ghost use Rattle.grid.specs.Cells.{shows};
ghost use Rattle.grid.specs.Window.{neighbours_on, Board, On};
ghost use Rattle.frontier.specs.Frontier.{inside_cells, known_mines};

use grid::cells::count_showing;
use grid::window::{Size, wide};

// Does the cell touch no open one?
fn touches_no_open(size: Size, position: &[u8], row: usize, column: usize) -> bool
    requires board { Board position.now size.rows size.columns }
    requires on { On size.rows size.columns row column }
    ensures { result ≡ not (any (λ d. leb (shows position.now d) 8) (neighbours_on size (row * size.columns + column))) }
{
    let near = size.neighbours_of(row, column);
    for &neighbour in near.as_slice() {
        if position[wide(neighbour)] <= 8 {
            return false;
        }
    }
    true
}

// inside_cell.
pub fn inside_cells(size: Size, position: &[u8]) -> usize
    requires { Board position.now size.rows size.columns }
    ensures { result ≡ inside_cells (neighbours_on size) position.now }
{
    let mut count = 0;
    for (c, &shown) in position.iter().enumerate() {
        if shown == 10 && touches_no_open(size, position, c / size.columns, c % size.columns) {
            count += 1;
        }
    }
    count
}

// is_minenum.
pub fn known_mines(position: &[u8]) -> usize
    requires { length position.now ≤ 1024 }
    ensures { result ≡ known_mines position.now }
{
    count_showing(position, 11)
}
