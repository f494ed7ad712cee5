// The answers of cal_all_solution to a line of numbers: for each block of its position's frontier in order, how many groups and solutions it has, and a row
// for each solution with a value for each group. Each block's table is asked for in a fresh table of 16,384 bytes, and a block whose rows do not fit is a
// refusal in its place. The rows stand in the lent table one after another, so the text is read off its front. specs/Tables.antt says what the text is.
#![tactic(auto)]

ghost use Rattle.std.specs.Prelude.{map, ◌+◌, ◌-◌, ◌*◌, ◌≤◌, ◌<◌, length};
ghost use Rattle.lists.specs.Lists.{range, joined};
ghost use Rattle.refusals.specs.Refusals.{refusal_number};
ghost use Rattle.tables.specs.Tables.{row_at, table_with};
ghost use Rattle.text.specs.Text.{Wrote};
ghost use Rattle.show.specs.Cells.{cells_text};
ghost use Rattle.table_lines.specs.Tables.{next_row, rows_of, rows_text, no_table_text, table_text, RowsWithin, block_table, tables_text, table_line};

use frontier::refresh_matrixs;
use grid::window::Size;
use lines::{put_unreadable, read_line};
use refusals::Refusal;
use show::{put_cells, put_refused};
use tables::{TableAnswer, cal_all_solution};
use text::Text;

// The row at place i, where rows are so many groups wide: ` 0 1 0`
fn put_row(out: &mut Text<'_>, table: &[u8], groups: usize, i: usize)
    requires { i * groups + groups ≤ length table.now }
    ensures { Wrote out.old out.new (cells_text (row_at groups table.now i)) }
{
    let from = i * groups;
    put_cells(out, &table[from..from + groups]);
}

// A row behind another: ` / 1 0 1`
fn put_next_row(out: &mut Text<'_>, table: &[u8], groups: usize, i: usize)
    requires { i * groups + groups ≤ length table.now }
    ensures { Wrote out.old out.new (next_row (row_at groups table.now i)) }
{
    out.bytes(b" /");
    put_row(out, table, groups, i);
}

// The rows from the second on.
fn put_more_rows(out: &mut Text<'_>, table: &[u8], groups: usize, solutions: usize)
    requires { (0 < solutions) × (solutions * groups ≤ length table.now) }
    ensures { Wrote out.old out.new (joined (map next_row (map (row_at groups table.now) (range 1 (solutions - 1))))) }
{
    for i in 1..solutions {
        put_next_row(out, table, groups, i);
    }
}

// All rows: ` 0 1 0 / 1 0 1`, or ` -` where there is none.
fn put_rows(out: &mut Text<'_>, table: &[u8], groups: usize, solutions: usize)
    requires { solutions * groups ≤ length table.now }
    ensures { Wrote out.old out.new (rows_text (rows_of table.now groups solutions)) }
{
    if solutions == 0 {
        return out.bytes(b" -");
    }
    put_row(out, table, groups, 0);
    put_more_rows(out, table, groups, solutions);
}

// ` [groups 3 solutions 2 rows 0 1 0 / 1 0 1]`
fn put_listed(out: &mut Text<'_>, table: &[u8], groups: usize, solutions: usize)
    requires { solutions * groups ≤ length table.now }
    ensures { Wrote out.old out.new (table_text (table_with solutions groups) table.now) }
{
    out.bytes(b" [groups ");
    out.number(groups);
    out.bytes(b" solutions ");
    out.number(solutions);
    out.bytes(b" rows");
    put_rows(out, table, groups, solutions);
    out.byte(b']');
}

// ` [refused 9]`
fn put_no_table(out: &mut Text<'_>, refusal: Refusal)
    ensures { Wrote out.old out.new (no_table_text (refusal_number refusal)) }
{
    out.bytes(b" [");
    put_refused(out, refusal);
    out.byte(b']');
}

// What the caller sees of a block.
fn put_table(out: &mut Text<'_>, answer: Result<TableAnswer, Refusal>, table: &[u8])
    requires { RowsWithin answer table.now }
    ensures { Wrote out.old out.new (table_text answer table.now) }
{
    match answer {
        Err(refusal) => put_no_table(out, refusal),
        Ok(answer) => put_listed(out, table, answer.groups, answer.solutions),
    }
}

// The table of the block at place k.
fn put_block(out: &mut Text<'_>, rows: usize, columns: usize, position: &[u8], k: usize)
    ensures { Wrote out.old out.new (block_table rows columns position.now k) }
{
    let mut table = [0u8; 16384];
    let answer = cal_all_solution(Size::flat(rows, columns), position, k, &mut table);
    put_table(out, answer, &table);
}

// The tables of so many blocks: `blocks 1 [groups 3 solutions 2 rows 0 1 0 / 1 0 1]`
fn put_tables(out: &mut Text<'_>, rows: usize, columns: usize, position: &[u8], blocks: usize)
    ensures { Wrote out.old out.new (tables_text rows columns position.now blocks) }
{
    out.bytes(b"blocks ");
    out.number(blocks);
    for k in 0..blocks {
        put_block(out, rows, columns, position, k);
    }
}

// The answers of cal_all_solution to a line: the table of each block of its position.
pub fn table_line(line: &[u8], out: &mut Text<'_>)
    ensures { Wrote out.old out.new (table_line line.now) }
{
    let Some(read) = read_line(line) else {
        return put_unreadable(out);
    };
    match refresh_matrixs(Size::flat(read.rows, read.columns), read.cells()) {
        Err(refusal) => put_refused(out, refusal),
        Ok(answer) => put_tables(
            out,
            read.rows,
            read.columns,
            read.cells(),
            answer.blocks.blocks,
        ),
    }
}
