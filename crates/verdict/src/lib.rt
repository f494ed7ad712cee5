// The verdict: is_solvable with refresh_board and IsVictory, in the passes of SPECIFICATION 9.1, and the same of a board that shows its mine total. The passes work on a position of their own; at the end
// it goes to the lent picture, and what is not open is 10 there. The rounds in which cells were opened are kept in the other lent slice. specs/Verdict.antt says
// what a caller sees; demand 3 is part of the contract.
#![tactic(auto)]

pub mod finding;
pub mod passes;

ghost use Rattle.std.specs.Prelude.{◌≡◌, ◌≢◌, [], ◌∷◌, ◌*◌, ◌<◌, length, replicate};
ghost use Rattle.grid.specs.Cells.{cell_of};
ghost use Rattle.grid.specs.Window.{flat, neighbours, neighbours_on, Board};
ghost use Rattle.refusals.specs.Refusals.{Accepted as TestAccepted};
ghost use Rattle.refusals.specs.Tests.{board_tested, start_cell};
ghost use Rattle.fitting.specs.Boards.{Accepted};
ghost use Rattle.fitting.specs.Demand.{picture as pictureOf, opened};
ghost use Rattle.rounds.specs.Rounds.{rounds_of};
ghost use Rattle.verdict.specs.Rules.{rules_of};
ghost use Rattle.verdict.specs.Verdict.{board_grade, verdict_seen, judged_by, verdict_after_tests, is_solvable, MeetsDemand3, is_solvable_total, MeetsDemand3Total};

use grid::window::Size;
use passes::run_passes;
use refusals::{Refusal, start_cell, test_board};
use rounds::no_rounds;

// Yes or no, the opened cells, the grade and the rounds.
#[derive(Clone, Copy)]
pub struct Verdict {
    pub yes: bool,
    pub opened: usize,
    pub grade: usize,
    pub rounds: usize,
}

// Shows what is open, and 10 for what is not, and counts what is open.
fn show_open(position: &[u8], picture: &mut [u8]) -> usize
    requires { length picture.old ≡ length position.now }
    ensures { (result ≡ opened position.now) × (picture.new ≡ pictureOf position.now) }
{
    let mut opened = 0;
    for (i, &cell) in position.iter().enumerate() {
        if cell <= 8 {
            opened += 1;
            picture[i] = cell;
        } else {
            picture[i] = 10;
        }
    }
    opened
}

// The grade of a board, from the verdict and the grade of the strongest rule that found a cell.
fn board_grade(yes: bool, strongest: usize) -> usize
    ensures { result ≡ board_grade yes strongest }
{
    if yes { strongest } else { 4 }
}

// The verdict of an accepted board from its start's cell, which is safe, with the mine total shown or not. The passes work in `position`, which is lent with every
// cell closed; no cell has a round when `opened_in` is lent.
fn judge_from(
    shows_total: bool,
    size: Size,
    cells: &[u8],
    start: usize,
    position: &mut [u8],
    picture: &mut [u8],
    opened_in: &mut [u16],
) -> Verdict
    requires board { Board cells.now size.rows size.columns × Board position.old size.rows size.columns × Board picture.old size.rows size.columns }
    requires accepted { Accepted (neighbours_on size) cells.now }
    requires start_in_bounds { (start < length cells.now) × (cell_of cells.now start ≢ 255) × (position.old ≡ replicate (length cells.now) 10) }
    requires opened_in_value { opened_in.old ≡ rounds_of [] (length cells.now) }
    ensures { verdict_seen (Ok result) picture.new opened_in.new ≡ judged_by (neighbours_on size) cells.now (rules_of shows_total (neighbours_on size) cells.now) start }
{
    let end = run_passes(shows_total, size, cells, start, position, opened_in);
    let opened = show_open(position, picture);
    let grade = board_grade(end.yes, end.grade);
    Verdict {
        yes: end.yes,
        opened,
        grade,
        rounds: end.rounds,
    }
}

// The same, with a position of its own, where every cell is closed, and no round yet.
fn judge(
    shows_total: bool,
    size: Size,
    cells: &[u8],
    start: usize,
    picture: &mut [u8],
    opened_in: &mut [u16],
) -> Verdict
    requires board { Board cells.now size.rows size.columns × Board picture.old size.rows size.columns }
    requires accepted { Accepted (neighbours_on size) cells.now }
    requires start_in_bounds { (start < length cells.now) × (cell_of cells.now start ≢ 255) }
    requires opened_in_len { length opened_in.old ≡ size.rows * size.columns }
    ensures { verdict_seen (Ok result) picture.new opened_in.new ≡ judged_by (neighbours_on size) cells.now (rules_of shows_total (neighbours_on size) cells.now) start }
{
    let mut position = [10u8; 1024];
    let n = cells.len();
    no_rounds(opened_in);
    judge_from(
        shows_total,
        size,
        cells,
        start,
        &mut position[..n],
        picture,
        opened_in,
    )
}

// The tests, and of a board that they accept the verdict from the start's cell, with the mine total shown or not.
fn test_and_judge(
    shows_total: bool,
    size: Size,
    start_row: usize,
    start_column: usize,
    cells: &[u8],
    picture: &mut [u8],
    opened_in: &mut [u16],
) -> Result<Verdict, Refusal>
    ensures { verdict_seen result picture.new opened_in.new
        ≡ verdict_after_tests (board_tested size.edgeless size.rows size.columns start_row start_column cells.now (length picture.old ∷ length opened_in.old ∷ []))
        (judged_by (neighbours_on size) cells.now (rules_of shows_total (neighbours_on size) cells.now) (start_cell size.columns start_row start_column))
        picture.old opened_in.old }
{
    let lent = [picture.len(), opened_in.len()];
    test_board(size, start_row, start_column, cells, &lent)?;
    let start = start_cell(size, start_row, start_column);
    Ok(judge(shows_total, size, cells, start, picture, opened_in))
}

// is_solvable: refusals 1 to 5 and 13, then the verdict.
pub fn is_solvable(
    size: Size,
    start_row: usize,
    start_column: usize,
    cells: &[u8],
    picture: &mut [u8],
    opened_in: &mut [u16],
) -> Result<Verdict, Refusal>
    ensures opened_in_after { verdict_seen result picture.new opened_in.new
        ≡ is_solvable size.edgeless size.rows size.columns start_row start_column cells.now picture.old opened_in.old }
    ensures meets_demand3 { board_tested size.edgeless size.rows size.columns start_row start_column cells.now (length picture.old ∷ length opened_in.old ∷ []) ≡ TestAccepted
        → MeetsDemand3 (neighbours_on size) cells.now (start_cell size.columns start_row start_column) result picture.new }
{
    test_and_judge(
        false,
        size,
        start_row,
        start_column,
        cells,
        picture,
        opened_in,
    )
}

// The same of a board that shows its mine total, which is that of its own mines: the passes have a fourth rule, which knows it.
pub fn is_solvable_total(
    rows: usize,
    columns: usize,
    start_row: usize,
    start_column: usize,
    cells: &[u8],
    picture: &mut [u8],
    opened_in: &mut [u16],
) -> Result<Verdict, Refusal>
    ensures opened_in_after { verdict_seen result picture.new opened_in.new
        ≡ is_solvable_total rows columns start_row start_column cells.now picture.old opened_in.old }
    ensures meets_demand3total { board_tested flat rows columns start_row start_column cells.now (length picture.old ∷ length opened_in.old ∷ []) ≡ TestAccepted
        → MeetsDemand3Total (neighbours flat rows columns) cells.now (start_cell columns start_row start_column) result picture.new }
{
    let size = Size::flat(rows, columns);
    test_and_judge(
        true,
        size,
        start_row,
        start_column,
        cells,
        picture,
        opened_in,
    )
}
