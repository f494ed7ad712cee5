// The sources of a position: the open cells with a closed neighbour, in reading order, and for each the eight slots of its closed neighbours.
#![tactic(auto)]

pub mod equations;

ghost use Rattle.std.specs.Prelude.{◌≡◌, ◌+◌, ◌*◌, ◌≤◌, ◌<◌, set};
ghost use Rattle.grid.specs.Window.{Board, On};
ghost use Rattle.sources.specs.Reading.{sources_in, SourcesRead};

use blocks::put_slots;
use grid::window::Size;

// Sources in an array: the first `len`.
#[derive(Drop)]
pub struct SourceList {
    pub cells: [u16; 1024],
    pub len: usize,
}

impl SourceList {
    // Puts a source behind the others.
    pub fn push(&mut self, cell: u16)
        requires { self.old.len < 1024 }
        ensures { self.new ≡ record { cells = set self.old.cells self.old.len cell; len = self.old.len + 1 } }
    {
        self.cells[self.len] = cell;
        self.len += 1;
    }

    // The sources alone, as a slice.
    pub fn as_slice(&self) -> &[u16]
        requires { self.now.len ≤ 1024 }
        ensures { result.now ≡ sources_in self.now }
    {
        &self.cells[..self.len]
    }
}

// The sources of a position, and for each cell the eight slots of the closed neighbours that it has as a source.
#[derive(Drop)]
pub struct Sources {
    pub beside: [u16; 8192],
    pub list: SourceList,
}

impl Sources {
    // Row by row, the sources of the whole position.
    pub fn read(&mut self, size: Size, position: &[u8])
        requires board { Board position.now size.rows size.columns }
        requires read { SourcesRead size position.now 0 self.old }
        ensures { SourcesRead size position.now (size.rows * size.columns) self.new }
    {
        for row in 0..size.rows {
            self.read_row(size, position, row);
        }
    }

    // The sources of one row go to the end of the list.
    fn read_row(&mut self, size: Size, position: &[u8], row: usize)
        requires board { Board position.now size.rows size.columns }
        requires row_lt_rows { row < size.rows }
        requires read { SourcesRead size position.now (row * size.columns) self.old }
        ensures { SourcesRead size position.now ((row + 1) * size.columns) self.new }
    {
        for column in 0..size.columns {
            self.read_cell(size, position, row, column);
        }
    }

    // A cell goes to the end of the list if it is a source.
    fn read_cell(&mut self, size: Size, position: &[u8], row: usize, column: usize)
        requires board { Board position.now size.rows size.columns }
        requires on { On size.rows size.columns row column }
        requires read { SourcesRead size position.now (row * size.columns + column) self.old }
        ensures { SourcesRead size position.now (row * size.columns + column + 1) self.new }
    {
        let c = size.cell_number(row, column);
        if position[c] <= 8 && size.shown_beside(position, row, column, 10) {
            let closed = size.neighbours_showing(position, row, column, 10);
            put_slots(&mut self.beside, c, closed);
            self.list.push(c as u16);
        }
    }
}
