// A line of decimal numbers read as a position or a board: rows, columns, and the cells row by row; or as a board with its start, whose row and column stand
// before the cells. The reading stops at the first word that is no number, and the line is unreadable then.
#![tactic(auto)]

ghost use Rattle.std.specs.Prelude.{◌≡◌, ◌≤◌, length, take};
ghost use Rattle.text.specs.Text.{Wrote};
ghost use Rattle.lines.specs.Lines.{pair_at, cell_byte, with_cells, numbers_at, line_of, start_line_of, unreadable_text};

use text::{Text, Word, number_at};

// Rows, columns and the cells, 0 in the slots past len.
#[derive(Drop)]
pub struct Line {
    pub rows: usize,
    pub columns: usize,
    pub cells: [u8; 1025],
    pub len: usize,
}

impl Line {
    // The cells that were read.
    pub fn cells(&self) -> &[u8]
        requires { self.now.len ≤ length self.now.cells }
        ensures { result.now ≡ take self.now.len self.now.cells }
    {
        &self.cells[..self.len]
    }
}

// A board and its start.
#[derive(Drop)]
pub struct StartLine {
    pub board: Line,
    pub start_row: usize,
    pub start_column: usize,
}

// Two numbers of a line, and the place after them.
#[derive(Clone, Copy)]
struct Pair {
    first: usize,
    second: usize,
    next: usize,
}

// The two numbers from a place on.
fn pair_at(line: &[u8], at: usize) -> Option<Pair>
    ensures { result ≡ pair_at line.now at }
{
    let Word::Number(first, behind) = number_at(line, at) else {
        return None;
    };
    let Word::Number(second, next) = number_at(line, behind) else {
        return None;
    };
    Some(Pair {
        first,
        second,
        next,
    })
}

// A number as a cell's byte; one that is none becomes 254, which no cell is.
fn cell_byte(number: usize) -> u8
    ensures { result ≡ cell_byte number }
{
    u8::try_from(number).unwrap_or(254)
}

// The cells from a place on, at most 1025 of them, with the rows and columns that stand before them.
fn read_cells(line: &[u8], from: usize, rows: usize, columns: usize) -> Option<Line>
    ensures { result ≡ with_cells rows columns (numbers_at line.now from) }
{
    let mut cells = [0u8; 1025];
    let mut len = 0;
    let mut at = from;
    loop {
        match number_at(line, at) {
            Word::Number(number, next) => {
                if len < 1025 {
                    cells[len] = cell_byte(number);
                    len += 1;
                }
                at = next;
            }
            Word::End => {
                return Some(Line {
                    rows,
                    columns,
                    cells,
                    len,
                });
            }
            Word::Other => return None,
        }
    }
}

// A line read; none where it is unreadable.
pub fn read_line(line: &[u8]) -> Option<Line>
    ensures { result ≡ line_of line.now }
{
    let sides = pair_at(line, 0)?;
    read_cells(line, sides.next, sides.first, sides.second)
}

// A line with a start read.
pub fn read_start_line(line: &[u8]) -> Option<StartLine>
    ensures { result ≡ start_line_of line.now }
{
    let sides = pair_at(line, 0)?;
    let start = pair_at(line, sides.next)?;
    let board = read_cells(line, start.next, sides.first, sides.second)?;
    Some(StartLine {
        board,
        start_row: start.first,
        start_column: start.second,
    })
}

// What any call answers to a line that is unreadable.
pub fn put_unreadable(out: &mut Text<'_>)
    ensures { Wrote out.old out.new unreadable_text }
{
    out.bytes(b"unreadable");
}
