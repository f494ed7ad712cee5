// The answers of the calls that deduce to a line of numbers: `refused 6`, or the two lists, the position with its marks, and the blocks left where the rule
// hands them out.
#![tactic(auto)]

ghost use Rattle.std.specs.Prelude.{Ok};
ghost use Rattle.blocks.specs.BlockSets.{Whole};
ghost use Rattle.deductions.specs.Answers.{seen};
ghost use Rattle.deductions.specs.ByRule.{Readable};
ghost use Rattle.text.specs.Text.{Wrote};
ghost use Rattle.rule_lines.specs.Deductions.{found_text, left_text, deduction_text, deduction_line};

use blocks::BlockSet;
use deductions::answer::DeductionAnswer;
use deductions::{Rule, deduce};
use grid::window::Size;
use lines::{put_unreadable, read_line};
use refusals::Refusal;
use show::{put_blocks, put_cells, put_numbers, put_refused};
use text::Text;

// `safe 1,5 mine 5 pos 0 12 0 1 1 11`
fn put_found(
    out: &mut Text<'_>,
    answer: &DeductionAnswer,
    position: &[u8],
    safe: &[u16],
    mines: &[u16],
)
    requires { Readable (seen (Ok answer.now) position.now safe.now mines.now) }
    ensures { Wrote out.old out.new (found_text (seen (Ok answer.now) position.now safe.now mines.now)) }
{
    out.bytes(b"safe ");
    put_numbers(out, &safe[..answer.safe]);
    out.bytes(b" mine ");
    put_numbers(out, &mines[..answer.mines]);
    out.bytes(b" pos");
    put_cells(out, position);
}

// ` blocks 0`, the blocks left; nothing where the rule hands none out.
fn put_left(out: &mut Text<'_>, rule: Rule, left: &BlockSet)
    requires { Whole left.now }
    ensures { Wrote out.old out.new (left_text rule left.now) }
{
    match rule {
        Rule::Direct | Rule::Minus => {
            out.bytes(b" ");
            put_blocks(out, left);
        }
        Rule::Enumerate => {}
    }
}

// What the caller of a rule sees.
fn put_deduction(
    out: &mut Text<'_>,
    rule: Rule,
    answer: Result<DeductionAnswer, Refusal>,
    position: &[u8],
    safe: &[u16],
    mines: &[u16],
)
    requires { Readable (seen answer position.now safe.now mines.now) }
    ensures { Wrote out.old out.new (deduction_text rule (seen answer position.now safe.now mines.now)) }
{
    match answer {
        Err(refusal) => put_refused(out, refusal),
        Ok(found) => {
            put_found(out, &found, position, safe, mines);
            put_left(out, rule, &found.blocks);
        }
    }
}

// The answer of a rule to a line. Each list that is lent has room for any board.
pub fn deduction_line(rule: Rule, line: &[u8], out: &mut Text<'_>)
    ensures { Wrote out.old out.new (deduction_line rule line.now) }
{
    let Some(read) = read_line(line) else {
        return put_unreadable(out);
    };
    let mut cells = read.cells;
    let position = &mut cells[..read.len];
    let mut safe = [0u16; 1024];
    let mut mines = [0u16; 1024];
    let size = Size::flat(read.rows, read.columns);
    let answer = deduce(rule, size, position, &mut safe, &mut mines);
    put_deduction(out, rule, answer, position, &safe, &mines);
}
