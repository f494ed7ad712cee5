// The neighbour window: which cells touch a cell. Whatever walks over neighbours goes through these functions. On a board without an edge (`edgeless`) the first
// and the last row touch, and the first and the last column: a window that wraps begins at the last line and runs past the size, and each line of it is folded
// back to the line that it is. On a board with an edge nothing is folded.
ghost use Rattle.std.specs.Prelude.{◌≡◌, true, ◌+◌, ◌*◌, ◌≤◌, ◌<◌, eqb, take, set, []};
ghost use Rattle.lists.specs.Lists.{any, count, keep};
ghost use Rattle.grid.specs.Cells.{cell_of};
ghost use Rattle.grid.specs.Window.{low_at, high_at, folded, is_inner, eight_around, neighbours, neighbours_on, flat_size, listed, Sized, Board, On, Around};

// How many rows and columns a board has, and whether it is one without an edge.
#[derive(Clone, Copy)]
pub struct Size {
    pub edgeless: bool,
    pub rows: usize,
    pub columns: usize,
}

// A board with an edge, the kind that every caller has.
pub const FLAT: bool = false;

// The rows from top up to bottom and the columns from left up to right, the ends left out: a cell and its neighbours.
#[derive(Clone, Copy)]
pub struct Window {
    pub top: usize,
    pub bottom: usize,
    pub left: usize,
    pub right: usize,
}

// At most eight cells: the first len slots, and 0 in the others.
#[derive(Clone, Copy)]
pub struct UpToEight {
    pub cells: [u16; 8],
    pub len: usize,
}

impl UpToEight {
    // No cell.
    pub fn empty() -> UpToEight
        ensures { result ≡ listed [] }
    {
        UpToEight {
            cells: [0; 8],
            len: 0,
        }
    }

    // Puts a cell behind the others.
    pub fn push(&mut self, cell: u16)
        requires { self.old.len < 8 }
        ensures { self.new ≡ record { cells = set self.old.cells self.old.len cell; len = self.old.len + 1 } }
    {
        self.cells[self.len] = cell;
        self.len += 1;
    }

    // The cells alone, as a slice.
    pub fn as_slice(&self) -> &[u16]
        requires { self.now.len ≤ 8 }
        ensures { result.now ≡ take self.now.len self.now.cells }
    {
        &self.cells[..self.len]
    }
}

// The first line of the window around i, of `size` of them.
fn low(edgeless: bool, size: usize, i: usize) -> usize
    requires { i < size }
    ensures { result ≡ low_at edgeless size i }
{
    if i != 0 {
        return i - 1;
    }
    if edgeless { size - 1 } else { 0 }
}

// One past the last line of the window around i. A window that wraps goes on past the size.
fn high(edgeless: bool, size: usize, i: usize) -> usize
    requires size_bound { size ≤ 32 }
    requires i_lt_size { i < size }
    ensures { result ≡ high_at edgeless size i }
{
    if edgeless {
        let first = low(edgeless, size, i);
        if size < 3 {
            return first;
        }
        return first + 3;
    }
    if i + 2 < size { i + 2 } else { size }
}

// The line that a line of a window is: past the size it begins anew.
fn fold(size: usize, i: usize) -> usize
    requires { i < size + size }
    ensures { (result ≡ folded size i) × (result < size) }
{
    if i < size { i } else { i - size }
}

// Has the line one before it and one after it?
fn is_inner(size: usize, i: usize) -> bool
    requires i_lt_size { i < size }
    requires size_bound { size ≤ 32 }
    ensures { result ≡ is_inner size i }
{
    0 < i && i + 1 < size
}

impl Size {
    // A board with an edge, the kind that every caller has.
    pub fn flat(rows: usize, columns: usize) -> Size
        ensures { result ≡ flat_size rows columns }
    {
        Size {
            edgeless: false,
            rows,
            columns,
        }
    }

    // The window around a cell.
    pub fn window_of(self, row: usize, column: usize) -> Window
        requires sized { Sized self.rows self.columns }
        requires on { On self.rows self.columns row column }
        ensures { Around self.edgeless self.rows self.columns row column result }
    {
        Window {
            top: low(self.edgeless, self.rows, row),
            bottom: high(self.edgeless, self.rows, row),
            left: low(self.edgeless, self.columns, column),
            right: high(self.edgeless, self.columns, column),
        }
    }

    // The number of a cell, as the lists of cells hold it.
    pub fn cell_number(self, row: usize, column: usize) -> usize
        requires sized { Sized self.rows self.columns }
        requires on { On self.rows self.columns row column }
        ensures { (result ≡ row * self.columns + column) × (result < self.rows * self.columns) × (self.rows * self.columns ≤ 1024) }
    {
        row * self.columns + column
    }

    // The neighbours of a cell of an inner row and an inner column: no window is walked, and nothing is folded on either kind of board.
    fn eight_around(self, row: usize, column: usize) -> UpToEight
        requires sized { Sized self.rows self.columns }
        requires on { On self.rows self.columns row column }
        requires row_value { (is_inner self.rows row ≡ true) × (is_inner self.columns column ≡ true) }
        ensures { result ≡ listed (eight_around self.columns (row * self.columns + column)) }
    {
        let own = self.cell_number(row, column);
        let above = own - self.columns;
        let below = own + self.columns;
        let cells = [
            (above - 1) as u16,
            above as u16,
            (above + 1) as u16,
            (own - 1) as u16,
            (own + 1) as u16,
            (below - 1) as u16,
            below as u16,
            (below + 1) as u16,
        ];
        UpToEight { cells, len: 8 }
    }

    // The neighbours of a cell, found by walking its window.
    fn walk_neighbours(self, row: usize, column: usize) -> UpToEight
        requires sized { Sized self.rows self.columns }
        requires on { On self.rows self.columns row column }
        ensures { result ≡ listed (neighbours_on self (row * self.columns + column)) }
    {
        let own = self.cell_number(row, column);
        let w = self.window_of(row, column);
        let mut near = UpToEight::empty();
        for m in w.top..w.bottom {
            let near_row = fold(self.rows, m);
            for n in w.left..w.right {
                let c = self.cell_number(near_row, fold(self.columns, n));
                if c != own {
                    near.push(c as u16);
                }
            }
        }
        near
    }

    // The neighbours of a cell, from the row above to the row below and from left to right.
    pub fn neighbours_of(self, row: usize, column: usize) -> UpToEight
        requires sized { Sized self.rows self.columns }
        requires on { On self.rows self.columns row column }
        ensures { result ≡ listed (neighbours_on self (row * self.columns + column)) }
    {
        if is_inner(self.rows, row) && is_inner(self.columns, column) {
            return self.eight_around(row, column);
        }
        self.walk_neighbours(row, column)
    }

    // Does a neighbour of the cell show `value`?
    pub fn shown_beside(self, cells: &[u8], row: usize, column: usize, value: u8) -> bool
        requires board { Board cells.now self.rows self.columns }
        requires on { On self.rows self.columns row column }
        ensures { result ≡ any (λ d. eqb (cell_of cells.now d) value) (neighbours_on self (row * self.columns + column)) }
    {
        if is_inner(self.rows, row) && is_inner(self.columns, column) {
            return self.shown_around(cells, row, column, value);
        }
        self.shown_in_window(cells, row, column, value)
    }

    // The same of a cell of an inner row and an inner column: its neighbours stand at fixed distances, and nothing is folded on either kind of board.
    fn shown_around(self, cells: &[u8], row: usize, column: usize, value: u8) -> bool
        requires board { Board cells.now self.rows self.columns }
        requires on { On self.rows self.columns row column }
        requires inner { (is_inner self.rows row ≡ true) × (is_inner self.columns column ≡ true) }
        ensures { result ≡ any (λ d. eqb (cell_of cells.now d) value) (eight_around self.columns (row * self.columns + column)) }
    {
        let own = self.cell_number(row, column);
        let above = own - self.columns;
        let below = own + self.columns;
        let near = [
            above - 1,
            above,
            above + 1,
            own - 1,
            own + 1,
            below - 1,
            below,
            below + 1,
        ];
        for neighbour in near {
            if cells[neighbour] == value {
                return true;
            }
        }
        false
    }

    // The same by walking the cell's window. The search stops at the first one found.
    fn shown_in_window(self, cells: &[u8], row: usize, column: usize, value: u8) -> bool
        requires board { Board cells.now self.rows self.columns }
        requires on { On self.rows self.columns row column }
        ensures { result ≡ any (λ d. eqb (cell_of cells.now d) value) (neighbours_on self (row * self.columns + column)) }
    {
        let own = self.cell_number(row, column);
        let w = self.window_of(row, column);
        let mut found = false;
        'outer: for m in w.top..w.bottom {
            let near_row = fold(self.rows, m);
            for n in w.left..w.right {
                let cell = self.cell_number(near_row, fold(self.columns, n));
                if cell != own {
                    if cells[cell] == value {
                        found = true;
                        break 'outer;
                    }
                }
            }
        }
        found
    }

    // How many neighbours of the cell show `value`.
    pub fn count_beside(self, cells: &[u8], row: usize, column: usize, value: u8) -> usize
        requires board { Board cells.now self.rows self.columns }
        requires on { On self.rows self.columns row column }
        ensures { result ≡ count (λ d. eqb (cell_of cells.now d) value) (neighbours_on self (row * self.columns + column)) }
    {
        let near = self.neighbours_of(row, column);
        let mut found = 0;
        for &neighbour in near.as_slice() {
            if cells[usize::from(neighbour)] == value {
                found += 1;
            }
        }
        found
    }

    // The neighbours of the cell that show `value`, in that order.
    pub fn neighbours_showing(self, cells: &[u8], row: usize, column: usize, value: u8) -> UpToEight
        requires board { Board cells.now self.rows self.columns }
        requires on { On self.rows self.columns row column }
        ensures { result ≡ listed (keep (λ d. eqb (cell_of cells.now d) value) (neighbours_on self (row * self.columns + column))) }
    {
        let near = self.neighbours_of(row, column);
        let mut kept = UpToEight::empty();
        for &cell in near.as_slice() {
            if cells[usize::from(cell)] == value {
                kept.push(cell);
            }
        }
        kept
    }
}

// A cell's number as an index.
pub fn wide(cell: u16) -> usize
    ensures { result ≡ cell }
{
    cell as usize
}

// A byte as a number.
pub fn wide_byte(byte: u8) -> usize
    ensures { (result ≡ byte) × (result < 256) }
{
    byte as usize
}
