// The passes: each marks the mines and opens the safe cells that the rules find, until all safe cells are open or a pass finds nothing.
ghost use Rattle.std.specs.Prelude.{◌≡◌, [], ◌∷◌, ◌≢◌, ◌*◌, ◌<◌, length, replicate};
ghost use Rattle.grid.specs.Cells.{cell_of};
ghost use Rattle.grid.specs.Window.{neighbours_on, Board};
ghost use Rattle.fitting.specs.Boards.{Accepted};
ghost use Rattle.fitting.specs.Passes.{open_cells, all_open, judge};
ghost use Rattle.marks.specs.CellLists.{list_in, Below};
ghost use Rattle.marks.specs.Written.{written};
ghost use Rattle.rounds.specs.Rounds.{rounds_of, judge_rounds};
ghost use Rattle.rounds.specs.GivenRounds.{round_given};
ghost use Rattle.verdict.specs.Rules.{rules_of};
ghost use Rattle.verdict.specs.Findings.{end_of, shown_total};

use super::finding::{Finding, find_in_pass};
use grid::cells::count_showing;
use grid::window::Size;
use marks::write_at_cells;
use rounds::open_in_round;

// How the passes end. The grade is that of the strongest rule that found a cell, whether all safe cells are open or not.
#[derive(Clone, Copy)]
pub struct Ending {
    pub yes: bool,
    pub grade: usize,
    pub rounds: usize,
}

// IsVictory: is every safe cell open?
pub fn all_open(board: &[u8], position: &[u8]) -> bool
    requires { length position.now ≡ length board.now }
    ensures { result ≡ all_open board.now position.now }
{
    for (i, &cell) in board.iter().enumerate() {
        if cell != 255 && 8 < position[i] {
            return false;
        }
    }
    true
}

// The mine total of a board where it is shown; a plain board's is not counted.
fn total_shown(shows_total: bool, board: &[u8]) -> Option<usize>
    ensures { result ≡ shown_total shows_total board.now }
{
    if shows_total {
        Some(count_showing(board, 255))
    } else {
        None
    }
}

// Opens the start in a position where all is closed, in the round 0.
fn open_start(size: Size, board: &[u8], start: usize, position: &mut [u8], opened_in: &mut [u16])
    requires board { Board board.now size.rows size.columns × Board position.old size.rows size.columns }
    requires accepted { Accepted (neighbours_on size) board.now }
    requires start_in_bounds { start < length board.now }
    requires opened_in_value { opened_in.old ≡ rounds_of [] (length board.now) }
    ensures position_after { position.new ≡ open_cells (neighbours_on size) board.now position.old (start ∷ []) }
    ensures opened_in_after { opened_in.new ≡ rounds_of (position.new ∷ []) (length board.now) }
{
    let from = [start as u16];
    open_in_round(size, board, position, &from, opened_in, 0);
}

// A pass, once the rules have found its cells: the mines are marked, and the safe cells opened in the pass's round.
fn make_pass(
    size: Size,
    board: &[u8],
    found: Finding,
    position: &mut [u8],
    opened_in: &mut [u16],
    round: u16,
)
    requires board { Board board.now size.rows size.columns × Board position.old size.rows size.columns }
    requires accepted { Accepted (neighbours_on size) board.now }
    requires below { Below (size.rows * size.columns) found.lists.safe × Below (size.rows * size.columns) found.lists.mines }
    requires opened_in_len { length opened_in.old ≡ size.rows * size.columns }
    ensures position_after { position.new ≡ open_cells (neighbours_on size) board.now (written 11 (list_in found.lists.mines) position.old) (list_in found.lists.safe) }
    ensures opened_in_after { opened_in.new ≡ round_given round position.new opened_in.old }
{
    let safe = found.lists.safe;
    let mines = found.lists.mines;
    write_at_cells(mines.as_slice(), 11, position);
    open_in_round(size, board, position, safe.as_slice(), opened_in, round);
}

// Opens the start in `position`, where all is closed; from there on at most as many passes as there are cells. No cell has a round before; what a pass
// opens has the pass's number. On a board that shows its mine total the passes know it.
pub fn run_passes(
    shows_total: bool,
    size: Size,
    board: &[u8],
    start: usize,
    position: &mut [u8],
    opened_in: &mut [u16],
) -> Ending
    requires board { Board board.now size.rows size.columns × Board position.old size.rows size.columns }
    requires accepted { Accepted (neighbours_on size) board.now }
    requires start_in_bounds { (start < length board.now) × (cell_of board.now start ≢ 255) × (position.old ≡ replicate (length board.now) 10) }
    requires opened_in_value { opened_in.old ≡ rounds_of [] (length board.now) }
    ensures value { result ≡ end_of (judge (neighbours_on size) board.now (rules_of shows_total (neighbours_on size) board.now) start) }
    ensures position_after { position.new ≡ (judge (neighbours_on size) board.now (rules_of shows_total (neighbours_on size) board.now) start).position }
    ensures opened_in_after { opened_in.new ≡ judge_rounds (neighbours_on size) board.now (rules_of shows_total (neighbours_on size) board.now) start }
{
    open_start(size, board, start, position, opened_in);
    let mut grade = 0;
    let mut rounds = 0;
    let cells = board.len();
    let total = total_shown(shows_total, board);
    for k in 0..cells {
        if all_open(board, position) {
            return Ending {
                yes: true,
                grade,
                rounds,
            };
        }
        let found = find_in_pass(size, position, total);
        if found.lists.safe.count + found.lists.mines.count == 0 {
            return Ending {
                yes: false,
                grade,
                rounds,
            };
        }
        grade = grade.max(found.grade);
        rounds += 1;
        make_pass(size, board, found, position, opened_in, rounds as u16);
    }
    let yes = all_open(board, position);
    Ending { yes, grade, rounds }
}
