// The answer of the verdict to a line with a start, as text: `yes 2 0 0 picture 1 10 rounds 0 65535`, or `refused 5`. By the mark that is asked for it is judged as a
// record, and the text of the verdict is the one that answers a record.
ghost use Rattle.std.specs.Prelude.{◌++◌};
ghost use Rattle.verdict.specs.Verdict.{verdict_seen};
ghost use Rattle.text.specs.Text.{Wrote};
ghost use Rattle.board_lines.specs.Verdicts.{picture_text, rounds_text, verdict_seen_text, verdict_line};

use lines::{put_unreadable, read_start_line};
use record_lines::{put_verdict, verdict_by_mark};
use records::{BoardMark, Head};
use refusals::Refusal;
use show::{put_cells, put_rounds};
use text::Text;
use verdict::Verdict;

// ` picture 1 10 rounds 0 65535`; nothing behind a refusal.
fn put_slices(
    out: &mut Text<'_>,
    verdict: Result<Verdict, Refusal>,
    picture: &[u8],
    opened_in: &[u16],
)
    ensures { Wrote out.old out.new (picture_text verdict picture.now ++ rounds_text verdict opened_in.now) }
{
    match verdict {
        Err(_) => {}
        Ok(_) => {
            out.bytes(b" picture");
            put_cells(out, picture);
            out.bytes(b" rounds");
            put_rounds(out, opened_in);
        }
    }
}

// What the caller of the verdict sees.
fn put_judged(
    out: &mut Text<'_>,
    verdict: Result<Verdict, Refusal>,
    picture: &[u8],
    opened_in: &[u16],
)
    ensures { Wrote out.old out.new (verdict_seen_text (verdict_seen verdict picture.now opened_in.now)) }
{
    put_verdict(out, verdict);
    put_slices(out, verdict, picture, opened_in);
}

// The answer of the verdict to a line, which a mark makes a plain board or one that shows its mine total. The slices that are lent are as long as the line has cells.
pub fn verdict_line(mark: BoardMark, line: &[u8], out: &mut Text<'_>)
    ensures { Wrote out.old out.new (verdict_line mark line.now) }
{
    let Some(read) = read_start_line(line) else {
        return put_unreadable(out);
    };
    let board = read.board;
    let mut all_shown = [0u8; 1025];
    let mut all_rounds = [0u16; 1025];
    let picture = &mut all_shown[..board.len];
    let opened_in = &mut all_rounds[..board.len];
    let head = Head {
        mark,
        rows: board.rows,
        columns: board.columns,
        row: read.start_row,
        column: read.start_column,
    };
    let verdict = verdict_by_mark(head, board.cells(), picture, opened_in);
    put_judged(out, verdict, picture, opened_in);
}
