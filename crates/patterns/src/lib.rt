// unsolvable_structure: whether a board has one of the patterns of mines that the Rust looks for before it solves. The board is copied into 32 rows of 32
// cells, on which the shapes of constant tables are laid at every anchor.
#![tactic(auto)]

mod table;

ghost use Rattle.std.specs.Prelude.{◌≡◌, replicate};
ghost use Rattle.grid.specs.Window.{Board};
ghost use Rattle.patterns.specs.Shapes.{mine_mark};
ghost use Rattle.patterns.specs.Answer.{unsolvable_structure};
ghost use Rattle.patterns.specs.Walk.{Laid};

use grid::window::Size;
use refusals::{Refusal, test_pattern};
use table::Framed;

// Whether a board has a pattern; refused below 3 rows or columns too. Numbers play no part.
pub fn unsolvable_structure(rows: usize, columns: usize, cells: &[u8]) -> Result<bool, Refusal>
    ensures { result ≡ unsolvable_structure rows columns cells.now }
{
    test_pattern(Size::flat(rows, columns), cells)?;
    let mut board = [[255u8; 32]; 32];
    lay(&mut board, rows, columns, cells);
    let framed = Framed {
        cells: &board,
        rows,
        columns,
    };
    Ok(framed.pattern_found())
}

// Copies the board into 32 rows of 32 cells, which are all 255: a safe cell becomes 0.
fn lay(board: &mut [[u8; 32]; 32], rows: usize, columns: usize, cells: &[u8])
    requires board_value { board.old ≡ replicate 32 (replicate 32 255) }
    requires board { Board cells.now rows columns }
    ensures { Laid rows columns cells.now board.new }
{
    for row in 0..rows {
        for column in 0..columns {
            board[row][column] = mark(cells[row * columns + column]);
        }
    }
}

// A mine as 255, a safe cell as 0.
fn mark(cell: u8) -> u8
    ensures { result ≡ mine_mark cell }
{
    if cell == 255 { 255 } else { 0 }
}
