// cal_bbbv: the 3BV of a board, the fewest left clicks that open all its safe cells. A click on a zero opens its whole opening and the numbers around it, so each
// opening takes one, counted where a flood begins; each safe cell that the floods leave closed touches no zero, and takes one of its own.
#![tactic(auto)]

ghost use Rattle.std.specs.Prelude.{◌≡◌, ℕ, Ok, length};
ghost use Rattle.grid.specs.Window.{neighbours_on, Board};
ghost use Rattle.fitting.specs.Boards.{Accepted};
ghost use Rattle.bbbv.specs.Openings.{all_closed, openings, bbbv};
ghost use Rattle.bbbv.specs.Groups.{IsBbbv};
ghost use Rattle.bbbv.specs.Flooded.{flooded, closed_safe};
ghost use Rattle.bbbv.specs.Answer.{cal_bbbv};

use flood::refresh_board;
use grid::window::Size;
use refusals::{Refusal, test_bbbv};

// The openings: a zero that is still closed is the first of its opening, which is flooded.
fn count_openings(size: Size, cells: &[u8], position: &mut [u8]) -> usize
    requires board { Board cells.now size.rows size.columns × Board position.old size.rows size.columns }
    requires accepted { Accepted (neighbours_on size) cells.now }
    requires position_value { position.old ≡ all_closed cells.now }
    ensures value { result ≡ openings (neighbours_on size) cells.now }
    ensures position_after { position.new ≡ flooded (neighbours_on size) cells.now (length cells.now) }
{
    let mut found = 0;
    for (c, &cell) in cells.iter().enumerate() {
        if cell == 0 && position[c] == 10 {
            refresh_board(size, cells, position, &[c as u16]);
            found += 1;
        }
    }
    found
}

// The safe cells that are closed in the position.
fn count_closed_safe(cells: &[u8], position: &[u8]) -> usize
    requires { length position.now ≡ length cells.now }
    ensures { result ≡ closed_safe cells.now position.now }
{
    let mut found = 0;
    for (c, &cell) in cells.iter().enumerate() {
        if cell != 255 && position[c] == 10 {
            found += 1;
        }
    }
    found
}

// The 3BV of an accepted board, with a position to work in where every cell is closed.
fn count_clicks(size: Size, cells: &[u8], position: &mut [u8]) -> usize
    requires board { Board cells.now size.rows size.columns × Board position.old size.rows size.columns }
    requires accepted { Accepted (neighbours_on size) cells.now }
    requires position_value { position.old ≡ all_closed cells.now }
    ensures { result ≡ bbbv (neighbours_on size) cells.now }
{
    let openings = count_openings(size, cells, position);
    openings + count_closed_safe(cells, position)
}

// The same, with a position of its own.
fn count_bbbv(size: Size, cells: &[u8]) -> usize
    requires board { Board cells.now size.rows size.columns }
    requires accepted { Accepted (neighbours_on size) cells.now }
    ensures { result ≡ bbbv (neighbours_on size) cells.now }
{
    let mut position = [10u8; 1024];
    let n = cells.len();
    count_clicks(size, cells, &mut position[..n])
}

// cal_bbbv: refusals 1, 2, 3 and 5, then the 3BV.
pub fn cal_bbbv(size: Size, cells: &[u8]) -> Result<usize, Refusal>
    ensures value { result ≡ cal_bbbv size.edgeless size.rows size.columns cells.now }
    ensures by_index { (n : ℕ) → result ≡ Ok n → IsBbbv (neighbours_on size) cells.now n }
{
    test_bbbv(size, cells)?;
    Ok(count_bbbv(size, cells))
}
