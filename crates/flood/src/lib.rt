// refresh_board: opens the cells of a list, and from each opened 0 its neighbours. A cell is opened as it is put on the stack, so that it stands there at
// most once; the stack has the opened cells whose neighbours are still to be looked at.
#![tactic(auto)]

ghost use Rattle.std.specs.Prelude.{◌≡◌, true, ◌+◌, ◌-◌, ◌*◌, ◌≤◌, ◌<◌, ltb, length, get_or, set, IfSome, IfNone};
ghost use Rattle.lists.specs.Lists.{all};
ghost use Rattle.grid.specs.Window.{neighbours_on, Board};
ghost use Rattle.fitting.specs.Boards.{Accepted};
ghost use Rattle.fitting.specs.Passes.{open_cells};
ghost use Rattle.flood.specs.Stack.{held, open_one, open_each, Room};

use grid::window::{Size, wide};

// Puts a cell on the stack, the first n of an array. The count stands beside the array and not in one struct with it: there each cell would wait for the count to
// come back from memory.
fn push(stack: &mut [u16; 1024], n: &mut usize, cell: u16)
    requires { n.old < 1024 }
    ensures { (stack.new ≡ set stack.old n.old cell) × (n.new ≡ n.old + 1) }
{
    stack[*n] = cell;
    *n += 1;
}

// Takes the last cell from the stack.
fn pop(stack: &[u16; 1024], n: &mut usize) -> Option<u16>
    requires { n.old ≤ 1024 }
    ensures empty { IfNone result ((n.old ≡ 0) × (n.new ≡ n.old)) }
    ensures last { IfSome result (λ cell. (0 < n.old) × (cell ≡ get_or stack.now (n.old - 1) 0) × (n.new ≡ n.old - 1)) }
{
    if *n == 0 {
        return None;
    }
    *n -= 1;
    Some(stack[*n])
}

// Opens a cell that is closed and puts it on the stack.
fn open_cell(board: &[u8], position: &mut [u8], cell: u16, stack: &mut [u16; 1024], n: &mut usize)
    requires room { Room board.now position.old stack.old n.old }
    requires cell_in_bounds { cell < length board.now }
    ensures room_2 { Room board.now position.new stack.new n.new }
    ensures opened { held position.new stack.new n.new
        ≡ open_one board.now (held position.old stack.old n.old) cell }
{
    let c = wide(cell);
    if position[c] == 10 {
        position[c] = board[c];
        push(stack, n, cell);
    }
}

// Opens the closed cells of a list.
fn open_list(
    board: &[u8],
    position: &mut [u8],
    cells: &[u16],
    stack: &mut [u16; 1024],
    n: &mut usize,
)
    requires room { Room board.now position.old stack.old n.old }
    requires on_board { all (λ c. ltb c (length board.now)) cells.now ≡ true }
    ensures room_2 { Room board.now position.new stack.new n.new }
    ensures opened { held position.new stack.new n.new
        ≡ open_each board.now (held position.old stack.old n.old) cells.now }
{
    for &cell in cells {
        open_cell(board, position, cell, stack, n);
    }
}

// refresh_board, from the cells of a list.
pub fn refresh_board(size: Size, board: &[u8], position: &mut [u8], cells: &[u16])
    requires board { Board board.now size.rows size.columns × Board position.old size.rows size.columns }
    requires accepted { Accepted (neighbours_on size) board.now }
    requires on_board { all (λ c. ltb c (size.rows * size.columns)) cells.now ≡ true }
    ensures { position.new ≡ open_cells (neighbours_on size) board.now position.old cells.now }
{
    let mut stack = [0u16; 1024];
    let mut n = 0;
    open_list(board, position, cells, &mut stack, &mut n);
    while let Some(cell) = pop(&stack, &mut n) {
        let c = wide(cell);
        if board[c] == 0 {
            let near = size.neighbours_of(c / size.columns, c % size.columns);
            open_list(board, position, near.as_slice(), &mut stack, &mut n);
        }
    }
}
