// The refusals of SPECIFICATION 3.1 and the tests that give them. A call runs its tests in the order of 3.2 and answers the first refusal;
// what a later test asks for, the earlier ones have shown. No test forms rows × columns before the size is known to be small.
#![tactic(auto)]

ghost use Rattle.std.specs.Prelude.{◌≡◌, true, ◌&&◌, ◌||◌, ◌<◌, leb, eqb, length};
ghost use Rattle.grid.specs.Cells.{cell_of};
ghost use Rattle.lists.specs.Lists.{all};
ghost use Rattle.grid.specs.Window.{neighbours_on, Sized, Board};
ghost use Rattle.refusals.specs.Refusals.{refusal_number, tested};
ghost use Rattle.refusals.specs.Tests.{size_ok, length_ok, room_ok, start_ok, mines_beside, numbers_ok, start_cell, board_tested, position_tested, deduction_tested, pattern_tested, bbbv_tested};
ghost use Rattle.refusals.specs.SharedTests.{cell_in, cell_tests};

use grid::window::Size;

// What a call may refuse, in the order of their numbers, of which 7 is not given again.
#[derive(Clone, Copy, PartialEq, Eq)]
pub enum Refusal {
    Size = 1,
    Length = 2,
    Cell = 3,
    Start = 4,
    Number = 5,
    Contradiction = 6,
    Block = 8,
    Table = 9,
    Mark = 10,
    Short = 11,
    StartMine = 13,
}

impl From<Refusal> for u8 {
    ghost from_gives = { λ refusal number. number ≡ refusal_number refusal };

    fn from(refusal: Refusal) -> u8 {
        refusal as u8
    }
}

// Is a side from `least` to 32?
fn side_ok(least: usize, side: usize) -> bool
    ensures { result ≡ (leb least side && leb side 32) }
{
    (least..=32).contains(&side)
}

// Test 1: both sides are from `least` to 32.
#[tactic(auto, unfolding(crate::specs::Tests::size_ok))]
pub fn size_ok(least: usize, size: Size) -> bool
    ensures { result ≡ size_ok least size.rows size.columns }
{
    side_ok(least, size.rows) && side_ok(least, size.columns)
}

// Test 2: a slice of `length` bytes has one for each cell.
pub fn length_ok(size: Size, length: usize) -> bool
    requires { Sized size.rows size.columns }
    ensures { result ≡ length_ok size.rows size.columns length }
{
    length == size.rows * size.columns
}

// Test 2: a list of `length` entries has room for each cell.
pub fn room_ok(size: Size, length: usize) -> bool
    requires { Sized size.rows size.columns }
    ensures { result ≡ room_ok size.rows size.columns length }
{
    size.rows * size.columns <= length
}

// Test 2: both of the lent lists, of these lengths, have room for each cell.
fn lists_ok(size: Size, safe: usize, mines: usize) -> bool
    requires { Sized size.rows size.columns }
    ensures { result ≡ (room_ok size.rows size.columns safe && room_ok size.rows size.columns mines) }
{
    room_ok(size, safe) && room_ok(size, mines)
}

// Test 2: each of the lent slices, of these lengths, has one byte for each cell.
fn lengths_ok(size: Size, lent: &[usize]) -> bool
    requires { Sized size.rows size.columns }
    ensures { result ≡ all (length_ok size.rows size.columns) lent.now }
{
    for &length in lent {
        if !length_ok(size, length) {
            return false;
        }
    }
    true
}

// Is a cell 0 to 8, or `low` to `high`?
fn cell_ok(low: u8, high: u8, v: u8) -> bool
    ensures { result ≡ cell_in low high v }
{
    v <= 8 || (low..=high).contains(&v)
}

// Test 3: each cell is 0 to 8, or `low` to `high`, which is 255 to 255 on a board and 10 to 12 in a position.
fn cells_ok(low: u8, high: u8, cells: &[u8]) -> bool
    ensures { result ≡ all (cell_in low high) cells.now }
{
    cells.iter().all(|&v| cell_ok(low, high, v))
}

// Test 4: the start is on the board.
#[tactic(auto, unfolding(crate::specs::Tests::start_ok))]
pub fn start_ok(size: Size, row: usize, column: usize) -> bool
    ensures { result ≡ start_ok size.rows size.columns row column }
{
    row < size.rows && column < size.columns
}

// Is a cell a mine, or its number its count of neighbouring mines?
fn number_ok(size: Size, cells: &[u8], cell: usize) -> bool
    requires board { Board cells.now size.rows size.columns }
    requires on { cell < length cells.now }
    ensures { result ≡ (eqb (cell_of cells.now cell) 255 || eqb (mines_beside (neighbours_on size) cells.now cell) (cell_of cells.now cell)) }
{
    let shown = cells[cell];
    if shown == 255 {
        return true;
    }
    let mines = size.count_beside(cells, cell / size.columns, cell % size.columns, 255);
    mines == usize::from(shown)
}

// Test 5: each safe cell's number is its count of neighbouring mines.
pub fn numbers_ok(size: Size, cells: &[u8]) -> bool
    requires { Board cells.now size.rows size.columns }
    ensures { result ≡ numbers_ok (neighbours_on size) cells.now }
{
    for cell in 0..cells.len() {
        if !number_ok(size, cells, cell) {
            return false;
        }
    }
    true
}

// The cell of a start on the board.
pub fn start_cell(size: Size, row: usize, column: usize) -> usize
    requires sized { Sized size.rows size.columns }
    requires column_value { start_ok size.rows size.columns row column ≡ true }
    ensures { result ≡ start_cell size.columns row column }
{
    row * size.columns + column
}

// Tests 1, 2 and 3 of a call on cells that are 0 to 8, or `low` to `high`.
fn test_cells(least: usize, size: Size, low: u8, high: u8, cells: &[u8]) -> Result<(), Refusal>
    ensures { result ≡ tested (cell_tests least size.rows size.columns cells.now (all (cell_in low high) cells.now)) }
{
    if !size_ok(least, size) {
        return Err(Refusal::Size);
    }
    if !length_ok(size, cells.len()) {
        return Err(Refusal::Length);
    }
    if !cells_ok(low, high, cells) {
        return Err(Refusal::Cell);
    }
    Ok(())
}

// The tests of a board call, which lends slices of the lengths `lent` too. These are measured before the board: test 2 is one refusal for all.
pub fn test_board(
    size: Size,
    row: usize,
    column: usize,
    cells: &[u8],
    lent: &[usize],
) -> Result<(), Refusal>
    ensures { result ≡ board_tested size.edgeless size.rows size.columns row column cells.now lent.now }
{
    if size_ok(1, size) && !lengths_ok(size, lent) {
        return Err(Refusal::Length);
    }
    test_cells(1, size, 255, 255, cells)?;
    if !start_ok(size, row, column) {
        return Err(Refusal::Start);
    }
    if !numbers_ok(size, cells) {
        return Err(Refusal::Number);
    }
    if cells[start_cell(size, row, column)] == 255 {
        return Err(Refusal::StartMine);
    }
    Ok(())
}

// The tests of a call on a position.
pub fn test_position(size: Size, position: &[u8]) -> Result<(), Refusal>
    ensures { result ≡ position_tested size.rows size.columns position.now }
{
    test_cells(1, size, 10, 12, position)
}

// The tests of a deduction, which lends lists of `safe` and `mines` entries. These are measured before the position: test 2 is one refusal for all.
pub fn test_deduction(size: Size, position: &[u8], safe: usize, mines: usize) -> Result<(), Refusal>
    ensures { result ≡ deduction_tested size.rows size.columns position.now safe mines }
{
    if size_ok(1, size) && !lists_ok(size, safe, mines) {
        return Err(Refusal::Length);
    }
    test_position(size, position)
}

// The tests of the pattern call, which looks at mines only.
pub fn test_pattern(size: Size, cells: &[u8]) -> Result<(), Refusal>
    ensures { result ≡ pattern_tested size.rows size.columns cells.now }
{
    test_cells(3, size, 255, 255, cells)
}

// The tests of the 3BV call, which has no start.
pub fn test_bbbv(size: Size, board: &[u8]) -> Result<(), Refusal>
    ensures { result ≡ bbbv_tested size.edgeless size.rows size.columns board.now }
{
    test_cells(1, size, 255, 255, board)?;
    if numbers_ok(size, board) {
        Ok(())
    } else {
        Err(Refusal::Number)
    }
}
