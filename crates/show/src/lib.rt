// Answers as lines of text: block sets, positions, the rounds in which their cells were opened, and refusals, each put behind what a writer has written. specs/ says what
// the text of each thing is.
#![tactic(auto)]

ghost use Rattle.std.specs.Prelude.{◌≡◌, map, ◌-◌, ◌≤◌, ◌<◌, length};
ghost use Rattle.lists.specs.Lists.{range, joined};
ghost use Rattle.refusals.specs.Refusals.{refusal_number};
ghost use Rattle.text.specs.Text.{Wrote};
ghost use Rattle.blocks.specs.BlockSets.{equation_at, block_at, blocks_of, Whole};
ghost use Rattle.show.specs.Blocks.{numbers_text, remainder_text, equation_text, block_text, blocks_text, Inside};
ghost use Rattle.show.specs.Cells.{marked_text, cells_text};
ghost use Rattle.show.specs.Refusals.{refused_text};

use blocks::{BlockSet, slots_at};
use refusals::Refusal;
use text::Text;

// A byte and a number behind it.
fn put_marked(out: &mut Text<'_>, mark: u8, number: usize)
    ensures { Wrote out.old out.new (marked_text mark number) }
{
    out.byte(mark);
    out.number(number);
}

// Numbers, each with the byte `mark` before it.
fn put_each(out: &mut Text<'_>, mark: u8, numbers: &[u16])
    ensures { Wrote out.old out.new (joined (map (marked_text mark) numbers.now)) }
{
    for &number in numbers {
        put_marked(out, mark, usize::from(number));
    }
}

// Numbers with commas between them, and a dash for none.
pub fn put_numbers(out: &mut Text<'_>, numbers: &[u16])
    ensures { Wrote out.old out.new (numbers_text numbers.now) }
{
    match numbers {
        [] => out.byte(b'-'),
        [first, others @ ..] => {
            out.number(usize::from(*first));
            put_each(out, b',', others);
        }
    }
}

// The remainder that `rest` stands for, which is 8 less.
fn put_remainder(out: &mut Text<'_>, rest: u8)
    ensures { Wrote out.old out.new (remainder_text rest) }
{
    let number = usize::from(rest);
    if number < 8 {
        put_marked(out, b'-', 8 - number);
        return;
    }
    out.number(number - 8);
}

// The equation at place e.
fn put_equation(out: &mut Text<'_>, set: &BlockSet, e: usize)
    requires { (length set.now.slots ≡ 8192) × (e < 1024) }
    ensures { Wrote out.old out.new (equation_text (equation_at set.now e)) }
{
    let cells = slots_at(&set.slots, e);
    out.bytes(b" | ");
    put_remainder(out, set.rests[e]);
    out.byte(b'=');
    put_numbers(out, cells.as_slice());
}

// The equations from one place up to another.
fn put_equations(out: &mut Text<'_>, set: &BlockSet, from: usize, to: usize)
    requires { (length set.now.slots ≡ 8192) × (from ≤ to) × (to ≤ 1024) }
    ensures { Wrote out.old out.new (joined (map equation_text (map (equation_at set.now) (range from (to - from))))) }
{
    for e in from..to {
        put_equation(out, set, e);
    }
}

// The block at place k.
fn put_block(out: &mut Text<'_>, set: &BlockSet, k: usize)
    requires { Inside set.now k }
    ensures { Wrote out.old out.new (block_text (block_at set.now k)) }
{
    let bounds = set.bounds_at(k);
    out.bytes(b" [");
    put_numbers(out, set.cells_of(bounds));
    put_equations(out, set, bounds.first_equation, bounds.end_equation);
    out.byte(b']');
}

// A block set.
pub fn put_blocks(out: &mut Text<'_>, set: &BlockSet)
    requires { Whole set.now }
    ensures { Wrote out.old out.new (blocks_text (blocks_of set.now)) }
{
    out.bytes(b"blocks ");
    out.number(set.blocks);
    for k in 0..set.blocks {
        put_block(out, set, k);
    }
}

// The bytes of a position, a space before each.
pub fn put_cells(out: &mut Text<'_>, cells: &[u8])
    ensures { Wrote out.old out.new (cells_text cells.now) }
{
    for &cell in cells {
        put_marked(out, b' ', usize::from(cell));
    }
}

// The rounds in which a position's cells were opened, a space before each.
pub fn put_rounds(out: &mut Text<'_>, rounds: &[u16])
    ensures { Wrote out.old out.new (cells_text rounds.now) }
{
    put_each(out, b' ', rounds);
}

// `refused 6`
pub fn put_refused(out: &mut Text<'_>, refusal: Refusal)
    ensures { Wrote out.old out.new (refused_text (refusal_number refusal)) }
{
    out.bytes(b"refused ");
    out.number(usize::from(u8::from(refusal)));
}
