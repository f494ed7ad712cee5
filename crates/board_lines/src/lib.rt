// The answers of the calls on a board to a line of numbers: unsolvable_structure and cal_bbbv here, the verdict in a file of its own.
#![tactic(auto)]

pub mod verdicts;

ghost use Rattle.text.specs.Text.{Wrote};
ghost use Rattle.board_lines.specs.Patterns.{pattern_line};
ghost use Rattle.board_lines.specs.Bbbv.{bbbv_line};

use bbbv::cal_bbbv;
use grid::window::Size;
use lines::{put_unreadable, read_line};
use patterns::unsolvable_structure;
use show::put_refused;
use text::Text;

// The answer of unsolvable_structure to a line.
pub fn pattern_line(line: &[u8], out: &mut Text<'_>)
    ensures { Wrote out.old out.new (pattern_line line.now) }
{
    let Some(read) = read_line(line) else {
        return put_unreadable(out);
    };
    match unsolvable_structure(read.rows, read.columns, read.cells()) {
        Err(refusal) => put_refused(out, refusal),
        Ok(true) => out.bytes(b"true"),
        Ok(false) => out.bytes(b"false"),
    }
}

// The answer of cal_bbbv to a line.
pub fn bbbv_line(line: &[u8], out: &mut Text<'_>)
    ensures { Wrote out.old out.new (bbbv_line line.now) }
{
    let Some(read) = read_line(line) else {
        return put_unreadable(out);
    };
    match cal_bbbv(Size::flat(read.rows, read.columns), read.cells()) {
        Err(refusal) => put_refused(out, refusal),
        Ok(number) => out.number(number),
    }
}
