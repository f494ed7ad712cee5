// The tables of shapes, and the matcher that walks them. The board stands in a frame of mines one cell wide, and rows and columns are counted from the frame's; a
// shape is laid by its anchor, which is a mine of every shape, and the tables have the other cells.
ghost use Rattle.std.specs.Prelude.{◌≡◌, true, ◌||◌, ◌-◌, ◌≤◌, ◌<◌};
ghost use Rattle.lists.specs.Lists.{any, range};
ghost use Rattle.grid.specs.Window.{Sized};
ghost use Rattle.patterns.specs.Shapes.{shapes, top_left, top_right, bottom_left, bottom_right, found_at, found_in_corner, found_anywhere};
ghost use Rattle.patterns.specs.Walk.{laid_at, shapes_of, links_right};

use grid::window::wide_byte;

// A cell of a shape: how many rows down and how many columns across from the anchor it is, what it asks for there (255 a mine, 0 a safe cell), 1 at the last cell
// of a shape, and the entry with which the walk goes on where something else stands there: the first cell of the next shape that does not ask for the same, or
// one past the last entry.
type ShapeCell = [u8; 5];

// The cells of the shapes that are looked for anywhere, one after another.
const SHAPES: [ShapeCell; 50] = [
    // 4 × 4: mines at the corners, and on one diagonal of the middle
    [0, 3, 255, 0, 28],
    [3, 0, 255, 0, 14],
    [3, 3, 255, 0, 14],
    [1, 1, 255, 0, 7],
    [1, 2, 0, 0, 7],
    [2, 1, 0, 0, 7],
    [2, 2, 255, 1, 7],
    // 4 × 4: mines at the corners, and on the other diagonal
    [0, 3, 255, 0, 28],
    [3, 0, 255, 0, 14],
    [3, 3, 255, 0, 14],
    [1, 1, 0, 0, 14],
    [1, 2, 255, 0, 14],
    [2, 1, 255, 0, 14],
    [2, 2, 0, 1, 14],
    // 3 × 4: mines in the outer columns, and at the left between them
    [0, 3, 255, 0, 28],
    [1, 0, 255, 0, 36],
    [2, 0, 255, 0, 36],
    [1, 3, 255, 0, 28],
    [2, 3, 255, 0, 28],
    [1, 1, 255, 0, 21],
    [1, 2, 0, 1, 21],
    // 3 × 4: mines in the outer columns, and at the right between them
    [0, 3, 255, 0, 28],
    [1, 0, 255, 0, 36],
    [2, 0, 255, 0, 36],
    [1, 3, 255, 0, 28],
    [2, 3, 255, 0, 28],
    [1, 1, 0, 0, 36],
    [1, 2, 255, 1, 36],
    // 3 × 3: mines around a safe cell
    [0, 1, 255, 0, 50],
    [0, 2, 255, 0, 50],
    [1, 0, 255, 0, 36],
    [1, 2, 255, 0, 36],
    [2, 0, 255, 0, 36],
    [2, 1, 255, 0, 36],
    [2, 2, 255, 0, 36],
    [1, 1, 0, 1, 36],
    // 4 × 3: mines in the outer rows, and at the top between them
    [0, 1, 255, 0, 50],
    [0, 2, 255, 0, 50],
    [3, 0, 255, 0, 50],
    [3, 1, 255, 0, 50],
    [3, 2, 255, 0, 50],
    [1, 1, 255, 0, 43],
    [2, 1, 0, 1, 43],
    // 4 × 3: mines in the outer rows, and at the bottom between them
    [0, 1, 255, 0, 50],
    [0, 2, 255, 0, 50],
    [3, 0, 255, 0, 50],
    [3, 1, 255, 0, 50],
    [3, 2, 255, 0, 50],
    [1, 1, 0, 0, 50],
    [2, 1, 255, 1, 50],
];

// The diagonals in the corners of the board, with the board's corner cell left free.
const TOP_LEFT: [ShapeCell; 12] = [
    // mines on one diagonal
    [0, 3, 255, 0, 12],
    [3, 0, 255, 0, 12],
    [3, 3, 255, 0, 12],
    [1, 2, 0, 0, 6],
    [2, 1, 0, 0, 6],
    [2, 2, 255, 1, 6],
    // mines on the other diagonal
    [0, 3, 255, 0, 12],
    [3, 0, 255, 0, 12],
    [3, 3, 255, 0, 12],
    [1, 2, 255, 0, 12],
    [2, 1, 255, 0, 12],
    [2, 2, 0, 1, 12],
];

const TOP_RIGHT: [ShapeCell; 12] = [
    // mines on one diagonal
    [0, 3, 255, 0, 12],
    [3, 0, 255, 0, 12],
    [3, 3, 255, 0, 12],
    [1, 1, 255, 0, 6],
    [2, 1, 0, 0, 6],
    [2, 2, 255, 1, 6],
    // mines on the other diagonal
    [0, 3, 255, 0, 12],
    [3, 0, 255, 0, 12],
    [3, 3, 255, 0, 12],
    [1, 1, 0, 0, 12],
    [2, 1, 255, 0, 12],
    [2, 2, 0, 1, 12],
];

const BOTTOM_LEFT: [ShapeCell; 12] = [
    // mines on one diagonal
    [0, 3, 255, 0, 12],
    [3, 0, 255, 0, 12],
    [3, 3, 255, 0, 12],
    [1, 1, 255, 0, 6],
    [1, 2, 0, 0, 6],
    [2, 2, 255, 1, 6],
    // mines on the other diagonal
    [0, 3, 255, 0, 12],
    [3, 0, 255, 0, 12],
    [3, 3, 255, 0, 12],
    [1, 1, 0, 0, 12],
    [1, 2, 255, 0, 12],
    [2, 2, 0, 1, 12],
];

const BOTTOM_RIGHT: [ShapeCell; 12] = [
    // mines on one diagonal
    [0, 3, 255, 0, 12],
    [3, 0, 255, 0, 12],
    [3, 3, 255, 0, 12],
    [1, 1, 255, 0, 6],
    [1, 2, 0, 0, 6],
    [2, 1, 0, 1, 6],
    // mines on the other diagonal
    [0, 3, 255, 0, 12],
    [3, 0, 255, 0, 12],
    [3, 3, 255, 0, 12],
    [1, 1, 0, 0, 12],
    [1, 2, 255, 0, 12],
    [2, 1, 255, 1, 12],
];

// The board in its frame of mines. Its cells are in the first rows and columns of 32 rows of 32.
#[derive(Clone, Copy)]
pub struct Framed<'a> {
    pub cells: &'a [[u8; 32]; 32],
    pub rows: usize,
    pub columns: usize,
}

impl<'a> Framed<'a> {
    // Is there a pattern, in a corner of the board or anywhere?
    pub fn pattern_found(&self) -> bool
        requires sized { Sized self.now.rows self.now.columns }
        requires le_rows { (3 ≤ self.now.rows) × (3 ≤ self.now.columns) }
        ensures { result ≡ (found_in_corner (laid_at self.now.rows self.now.columns self.now.cells.now) self.now.rows self.now.columns
            || found_anywhere (laid_at self.now.rows self.now.columns self.now.cells.now) self.now.rows self.now.columns) }
    {
        self.found_in_corner() || self.found_anywhere()
    }

    // Does a shape fit in its corner of the board?
    fn found_in_corner(&self) -> bool
        requires sized { Sized self.now.rows self.now.columns }
        requires le_rows { (3 ≤ self.now.rows) × (3 ≤ self.now.columns) }
        ensures { result ≡ found_in_corner (laid_at self.now.rows self.now.columns self.now.cells.now) self.now.rows self.now.columns }
    {
        let bottom = self.rows - 2;
        let right = self.columns - 2;
        self.found_at(&TOP_LEFT, 0, 0)
            || self.found_at(&TOP_RIGHT, 0, right)
            || self.found_at(&BOTTOM_LEFT, bottom, 0)
            || self.found_at(&BOTTOM_RIGHT, bottom, right)
    }

    // Does a shape fit at an anchor anywhere?
    fn found_anywhere(&self) -> bool
        requires { Sized self.now.rows self.now.columns }
        ensures { result ≡ found_anywhere (laid_at self.now.rows self.now.columns self.now.cells.now) self.now.rows self.now.columns }
    {
        for row in 0..self.rows {
            if self.found_in_row(row) {
                return true;
            }
        }
        false
    }

    // Does a shape fit at an anchor of the row?
    fn found_in_row(&self, row: usize) -> bool
        requires sized { Sized self.now.rows self.now.columns }
        requires row_lt_rows { row < self.now.rows }
        ensures { result ≡ any (λ column. found_at (laid_at self.now.rows self.now.columns self.now.cells.now) row column shapes) (range 0 self.now.columns) }
    {
        for column in 0..self.columns {
            if self.found_at(&SHAPES, row, column) {
                return true;
            }
        }
        false
    }

    // The matcher: does one of the shapes of the table fit at the anchor?
    fn found_at(&self, table: &[ShapeCell], row: usize, column: usize) -> bool
        requires links { links_right table.now ≡ true }
        requires sized { Sized self.now.rows self.now.columns }
        requires row_le_rows { (row ≤ self.now.rows) × (column ≤ self.now.columns) }
        ensures { result ≡ found_at (laid_at self.now.rows self.now.columns self.now.cells.now) row column (shapes_of table.now) }
    {
        if self.stands(row, column) != 255 {
            return false;
        }
        let mut k = 0;
        while k < table.len() {
            let [down, across, asks, last, next] = table[k];
            let there = self.stands(row + wide_byte(down), column + wide_byte(across));
            if there != asks {
                k = wide_byte(next);
            } else if last == 1 {
                return true;
            } else {
                k += 1;
            }
        }
        false
    }

    // What stands at a place of the framed board: 255 for a mine and on the frame, 0 for a safe cell, 1 beyond the frame.
    fn stands(&self, row: usize, column: usize) -> u8
        requires { Sized self.now.rows self.now.columns }
        ensures { result ≡ laid_at self.now.rows self.now.columns self.now.cells.now row column }
    {
        if self.rows + 1 < row || self.columns + 1 < column {
            return 1;
        }
        if row == 0 || 32 < row || column == 0 || 32 < column {
            return 255;
        }
        self.cells[row - 1][column - 1]
    }
}
