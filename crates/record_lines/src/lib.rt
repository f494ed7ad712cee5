// The lines that answer board records, and the verdict of a whole one. A line is the record's number, then the verdict and its three numbers, or `refused` and the refusal's. What a
// record is, `records` tells; which mark is judged how, is decided here.
#![tactic(auto)]

ghost use Rattle.std.specs.Prelude.{◌≡◌, ◌≤◌};
ghost use Rattle.text.specs.Text.{Wrote};
ghost use Rattle.verdict.specs.Verdict.{verdict_seen};
ghost use Rattle.record_lines.specs.Answers.{verdict_word, verdict_text, line_text, picture_size, verdict_by_mark, board_verdict};

use grid::window::Size;
use records::{BoardMark, Head};
use refusals::Refusal;
use show::put_refused;
use text::Text;
use verdict::{Verdict, is_solvable, is_solvable_total};

// `yes ` or `no `
fn put_word(out: &mut Text<'_>, yes: bool)
    ensures { Wrote out.old out.new (verdict_word yes) }
{
    if yes {
        return out.bytes(b"yes ");
    }
    out.bytes(b"no ");
}

// `yes 2 0 0` or `refused 1`
pub fn put_verdict(out: &mut Text<'_>, verdict: Result<Verdict, Refusal>)
    ensures { Wrote out.old out.new (verdict_text verdict) }
{
    match verdict {
        Err(refusal) => put_refused(out, refusal),
        Ok(judged) => {
            put_word(out, judged.yes);
            out.number(judged.opened);
            out.byte(b' ');
            out.number(judged.grade);
            out.byte(b' ');
            out.number(judged.rounds);
        }
    }
}

// The line of a record: its number, the verdict, the end of the line.
pub fn put_line(out: &mut Text<'_>, number: usize, verdict: Result<Verdict, Refusal>)
    ensures { Wrote out.old out.new (line_text number verdict) }
{
    out.number(number);
    out.byte(b' ');
    put_verdict(out, verdict);
    out.byte(b'\n');
}

// How many cells of picture, and of rounds, a board is lent: all that it has, and none for a board that test 1 refuses.
#[tactic(auto, unfolding(crate::specs::Answers::picture_size))]
fn picture_size(rows: usize, columns: usize) -> usize
    ensures value { result ≡ picture_size rows columns }
    ensures upper_bound { result ≤ 1024 }
{
    if rows <= 32 && columns <= 32 {
        rows * columns
    } else {
        0
    }
}

// The verdict of a board by the head of its record. Which mark is judged how, is decided here alone.
pub fn verdict_by_mark(
    head: Head,
    cells: &[u8],
    picture: &mut [u8],
    opened_in: &mut [u16],
) -> Result<Verdict, Refusal>
    ensures { verdict_seen result picture.new opened_in.new
        ≡ verdict_by_mark head cells.now picture.old opened_in.old }
{
    match head.mark {
        BoardMark::Plain => is_solvable(
            Size::flat(head.rows, head.columns),
            head.row,
            head.column,
            cells,
            picture,
            opened_in,
        ),
        BoardMark::Total => is_solvable_total(
            head.rows,
            head.columns,
            head.row,
            head.column,
            cells,
            picture,
            opened_in,
        ),
        BoardMark::Unknown => Err(Refusal::Mark),
    }
}

// The verdict of a record's board. Picture and rounds are lent for the time of the call.
pub fn board_verdict(head: Head, cells: &[u8]) -> Result<Verdict, Refusal>
    ensures { result ≡ board_verdict head cells.now }
{
    let size = picture_size(head.rows, head.columns);
    let mut picture = [0u8; 1024];
    let mut opened_in = [0u16; 1024];
    verdict_by_mark(head, cells, &mut picture[..size], &mut opened_in[..size])
}
