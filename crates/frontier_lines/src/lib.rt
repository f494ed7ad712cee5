// The answer of refresh_matrixs to a line of numbers: `inside 1 mines 0 blocks 1 [1 | 1=1]`, or a refusal.
#![tactic(auto)]

ghost use Rattle.text.specs.Text.{Wrote};
ghost use Rattle.frontier_lines.specs.Frontier.{frontier_line};

use frontier::refresh_matrixs;
use grid::window::Size;
use lines::{put_unreadable, read_line};
use show::{put_blocks, put_refused};
use text::Text;

// The answer to a line.
pub fn frontier_line(line: &[u8], out: &mut Text<'_>)
    ensures { Wrote out.old out.new (frontier_line line.now) }
{
    let Some(read) = read_line(line) else {
        return put_unreadable(out);
    };
    match refresh_matrixs(Size::flat(read.rows, read.columns), read.cells()) {
        Err(refusal) => put_refused(out, refusal),
        Ok(answer) => {
            out.bytes(b"inside ");
            out.number(answer.inside_cell);
            out.bytes(b" mines ");
            out.number(answer.is_minenum);
            out.bytes(b" ");
            put_blocks(out, &answer.blocks);
        }
    }
}
