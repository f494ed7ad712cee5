// What C and Rust call. Every call answers 0 or the refusal's number (SPECIFICATION 3.1); its counts go to the front of the lent slice `counts`, as many as that
// has room for. A refusal writes nothing. Numbers and slices only (a slice is a pointer and its length), and nothing is asked of the caller.
// The first clause of a call gives the number and every lent byte, whatever room there is for counts. What demands 2 and 3 ask is said in the other clauses, of
// the number, the slices and the first two counts, where there is room for both; when a rule refuses with 6 is said of the number alone.
#![tactic(auto)]

ghost use Rattle.std.specs.Prelude.{◌≡◌, Bool, List, [], ◌∷◌, ◌<◌, eqb, length, get_or, set};
ghost use Rattle.grid.specs.Window.{flat, neighbours};
ghost use Rattle.refusals.specs.Refusals.{Accepted};
ghost use Rattle.refusals.specs.Tests.{board_tested, deduction_tested, bbbv_tested, start_cell};
ghost use Rattle.fitting.specs.Layouts.{Fits, of_total};
ghost use Rattle.fitting.specs.Boards.{mine_total};
ghost use Rattle.fitting.specs.Demand.{Demand3, Demand3Among};
ghost use Rattle.frontier.specs.Answer.{refresh_matrixs};
ghost use Rattle.deductions.specs.Answers.{deduction, solve_direct, solve_minus, solve_enumerate};
ghost use Rattle.deductions.specs.Calls.{SoundCall, CompleteCall};
ghost use Rattle.deductions.specs.Contradictions.{DirectRefuses, MinusRefuses, EnumerateRefuses};
ghost use Rattle.deductions.specs.ByRule.{rule_on, CompleteBy, RefusesBy};
ghost use Rattle.tables.specs.Tables.{cal_all_solution};
ghost use Rattle.tables.specs.Listed.{TableCall};
ghost use Rattle.patterns.specs.Answer.{unsolvable_structure};
ghost use Rattle.bbbv.specs.Groups.{IsBbbv};
ghost use Rattle.bbbv.specs.Answer.{cal_bbbv};
ghost use Rattle.verdict.specs.Verdict.{verdict_number, verdict_values, is_solvable, is_solvable_total};
ghost use Rattle.export.specs.Returned.{returned, laid, frontier_returned, deduction_returned, table_returned, pattern_returned, bbbv_returned, verdict_returned};

use bbbv::cal_bbbv;
use deductions::{Rule, deduce};
use frontier::refresh_matrixs;
use grid::window::Size;
use patterns::unsolvable_structure;
use refusals::Refusal;
use tables::cal_all_solution;
use verdict::{Verdict, is_solvable, is_solvable_total};

// A count at its place in the lent slice, where there is room for it.
fn put_count(counts: &mut [u64], at: usize, value: usize)
    ensures { counts.new ≡ set counts.old at value }
{
    if at < counts.len() {
        counts[at] = value as u64;
    }
}

// The counts of an accepted call, which answers 0.
fn put_counts(values: &[usize], counts: &mut [u64]) -> u8
    ensures { (result ≡ 0) × (counts.new ≡ laid values.now counts.old) }
{
    for (at, &value) in values.iter().enumerate() {
        put_count(counts, at, value);
    }
    0
}

// A rule's call, with its counts.
fn deduce_counted(
    rule: Rule,
    rows: usize,
    columns: usize,
    position: &mut [u8],
    safe: &mut [u16],
    mines: &mut [u16],
    counts: &mut [u64],
) -> u8
    ensures counts_after { returned result (position.new ∷ safe.new ∷ mines.new ∷ []) counts.new
        ≡ deduction_returned (deduction (rule_on rule) flat rows columns position.old safe.old mines.old) counts.old }
    ensures sound { 1 < length counts.old → SoundCall flat rows columns position.old safe.old mines.old
        result (get_or counts.new 0 0) (get_or counts.new 1 0) position.new safe.new mines.new }
    ensures complete { 1 < length counts.old → CompleteBy rule flat rows columns position.old safe.old mines.old
        result (get_or counts.new 0 0) (get_or counts.new 1 0) safe.new mines.new }
    ensures six { RefusesBy rule flat rows columns position.old safe.old mines.old result }
{
    let answer = deduce(rule, Size::flat(rows, columns), position, safe, mines);
    match answer {
        Err(refusal) => u8::from(refusal),
        Ok(lists) => put_counts(&[lists.safe, lists.mines], counts),
    }
}

// A verdict's answer: the refusal's number, or 0 and its four counts, of which the first is 1 for yes.
fn put_verdict(verdict: Result<Verdict, Refusal>, counts: &mut [u64]) -> u8
    ensures { (result ≡ verdict_number verdict) × (counts.new ≡ laid (verdict_values verdict) counts.old) }
{
    match verdict {
        Err(refusal) => u8::from(refusal),
        Ok(judged) => {
            let yes = usize::from(judged.yes);
            put_counts(&[yes, judged.opened, judged.grade, judged.rounds], counts)
        }
    }
}

// refresh_matrixs. Counts: blocks, inside cells, known mines.
#[unsafe(no_mangle)]
pub extern "C" fn lihvompa_frontier(
    rows: usize,
    columns: usize,
    position: &[u8],
    counts: &mut [u64],
) -> u8
    ensures { returned result [] counts.new ≡ frontier_returned (refresh_matrixs flat rows columns position.now) counts.old }
{
    match refresh_matrixs(Size::flat(rows, columns), position) {
        Err(refusal) => u8::from(refusal),
        Ok(answer) => put_counts(
            &[answer.blocks.blocks, answer.inside_cell, answer.is_minenum],
            counts,
        ),
    }
}

// solve_direct: the lists go to the two slices, and their cells are marked in the position. Counts: safe cells, mines. A caller that lends room for both has
// demand 2 of them and of the slices: each listed cell is so in every layout that fits the position.
#[unsafe(no_mangle)]
pub extern "C" fn lihvompa_direct(
    rows: usize,
    columns: usize,
    position: &mut [u8],
    safe: &mut [u16],
    mines: &mut [u16],
    counts: &mut [u64],
) -> u8
    ensures counts_after { returned result (position.new ∷ safe.new ∷ mines.new ∷ []) counts.new
        ≡ deduction_returned (solve_direct flat rows columns position.old safe.old mines.old) counts.old }
    ensures sound { 1 < length counts.old → SoundCall flat rows columns position.old safe.old mines.old
        result (get_or counts.new 0 0) (get_or counts.new 1 0) position.new safe.new mines.new }
    ensures six { DirectRefuses flat rows columns position.old safe.old mines.old result }
{
    deduce_counted(Rule::Direct, rows, columns, position, safe, mines, counts)
}

// solve_minus, likewise.
#[unsafe(no_mangle)]
pub extern "C" fn lihvompa_minus(
    rows: usize,
    columns: usize,
    position: &mut [u8],
    safe: &mut [u16],
    mines: &mut [u16],
    counts: &mut [u64],
) -> u8
    ensures counts_after { returned result (position.new ∷ safe.new ∷ mines.new ∷ []) counts.new
        ≡ deduction_returned (solve_minus flat rows columns position.old safe.old mines.old) counts.old }
    ensures sound { 1 < length counts.old → SoundCall flat rows columns position.old safe.old mines.old
        result (get_or counts.new 0 0) (get_or counts.new 1 0) position.new safe.new mines.new }
    ensures six { MinusRefuses flat rows columns position.old safe.old mines.old result }
{
    deduce_counted(Rule::Minus, rows, columns, position, safe, mines, counts)
}

// solve_enumerate, likewise; and where some layout fits, each cell of the frontier that is the same in all of them is listed.
#[unsafe(no_mangle)]
pub extern "C" fn lihvompa_enumerate(
    rows: usize,
    columns: usize,
    position: &mut [u8],
    safe: &mut [u16],
    mines: &mut [u16],
    counts: &mut [u64],
) -> u8
    ensures counts_after { returned result (position.new ∷ safe.new ∷ mines.new ∷ []) counts.new
        ≡ deduction_returned (solve_enumerate flat rows columns position.old safe.old mines.old) counts.old }
    ensures sound { 1 < length counts.old → SoundCall flat rows columns position.old safe.old mines.old
        result (get_or counts.new 0 0) (get_or counts.new 1 0) position.new safe.new mines.new }
    ensures complete { 1 < length counts.old
        → deduction_tested rows columns position.old (length safe.old) (length mines.old) ≡ Accepted
        → (layout : List Bool) → Fits (neighbours flat rows columns) position.old layout
        → CompleteCall (neighbours flat rows columns) position.old
        result (get_or counts.new 0 0) (get_or counts.new 1 0) safe.new mines.new }
    ensures six { EnumerateRefuses flat rows columns position.old safe.old mines.old result }
{
    deduce_counted(
        Rule::Enumerate,
        rows,
        columns,
        position,
        safe,
        mines,
        counts,
    )
}

// cal_all_solution: the rows of a block's solutions go to the front of the table. Counts: solutions, groups. A caller that lends room for both has of them and of
// the table that it lists every solution of the block asked for, once and in order.
#[unsafe(no_mangle)]
pub extern "C" fn lihvompa_table(
    rows: usize,
    columns: usize,
    position: &[u8],
    block: usize,
    table: &mut [u8],
    counts: &mut [u64],
) -> u8
    ensures counts_after { returned result (table.new ∷ []) counts.new
        ≡ table_returned (cal_all_solution flat rows columns position.now block table.old) counts.old }
    ensures listed { 1 < length counts.old → TableCall flat rows columns position.now block table.old
        result (get_or counts.new 0 0) (get_or counts.new 1 0) table.new }
{
    match cal_all_solution(Size::flat(rows, columns), position, block, table) {
        Err(refusal) => u8::from(refusal),
        Ok(answer) => put_counts(&[answer.solutions, answer.groups], counts),
    }
}

// unsolvable_structure. Counts: 1 where a pattern is found, else 0.
#[unsafe(no_mangle)]
pub extern "C" fn lihvompa_pattern(
    rows: usize,
    columns: usize,
    cells: &[u8],
    counts: &mut [u64],
) -> u8
    ensures { returned result [] counts.new ≡ pattern_returned (unsolvable_structure rows columns cells.now) counts.old }
{
    match unsolvable_structure(rows, columns, cells) {
        Err(refusal) => u8::from(refusal),
        Ok(found) => put_counts(&[usize::from(found)], counts),
    }
}

// cal_bbbv. Counts: the 3BV. A caller that lends room for it has of it that it is the number of connected groups of zeros and of the cells that touch none.
#[unsafe(no_mangle)]
pub extern "C" fn lihvompa_bbbv(rows: usize, columns: usize, cells: &[u8], counts: &mut [u64]) -> u8
    ensures counts_after { returned result [] counts.new ≡ bbbv_returned (cal_bbbv flat rows columns cells.now) counts.old }
    ensures bbbv { bbbv_tested flat rows columns cells.now ≡ Accepted → 0 < length counts.old
        → IsBbbv (neighbours flat rows columns) cells.now (get_or counts.new 0 0) }
{
    match cal_bbbv(Size::flat(rows, columns), cells) {
        Err(refusal) => u8::from(refusal),
        Ok(number) => put_counts(&[number], counts),
    }
}

// is_solvable. Counts: 1 for yes or 0 for no, opened cells, grade, rounds. A caller that lends room for the first two has demand 3 of them and of the picture. The slice
// of 16-bit numbers gets the round in which each cell was opened.
#[unsafe(no_mangle)]
pub extern "C" fn lihvompa_verdict(
    rows: usize,
    columns: usize,
    start_row: usize,
    start_column: usize,
    cells: &[u8],
    picture: &mut [u8],
    opened_in: &mut [u16],
    counts: &mut [u64],
) -> u8
    ensures counts_after { returned result (picture.new ∷ opened_in.new ∷ []) counts.new
        ≡ verdict_returned (is_solvable flat rows columns start_row start_column cells.now picture.old opened_in.old) counts.old }
    ensures demand3 { board_tested flat rows columns start_row start_column cells.now (length picture.old ∷ length opened_in.old ∷ []) ≡ Accepted
        → 1 < length counts.old
        → Demand3 (neighbours flat rows columns) cells.now (start_cell columns start_row start_column)
        (eqb (get_or counts.new 0 0) 1) (get_or counts.new 1 0) picture.new }
{
    let verdict = is_solvable(
        Size::flat(rows, columns),
        start_row,
        start_column,
        cells,
        picture,
        opened_in,
    );
    put_verdict(verdict, counts)
}

// The verdict of a board that shows its mine total. No parameter gives the total: it is that of the board's own mines. Parameters and counts are those of
// lihvompa_verdict, and demand 3 is that of a solver who goes by the layouts with as many mines as the board.
#[unsafe(no_mangle)]
pub extern "C" fn lihvompa_verdict_total(
    rows: usize,
    columns: usize,
    start_row: usize,
    start_column: usize,
    cells: &[u8],
    picture: &mut [u8],
    opened_in: &mut [u16],
    counts: &mut [u64],
) -> u8
    ensures counts_after { returned result (picture.new ∷ opened_in.new ∷ []) counts.new
        ≡ verdict_returned (is_solvable_total rows columns start_row start_column cells.now picture.old opened_in.old) counts.old }
    ensures demand3among { board_tested flat rows columns start_row start_column cells.now (length picture.old ∷ length opened_in.old ∷ []) ≡ Accepted
        → 1 < length counts.old
        → Demand3Among (neighbours flat rows columns) (of_total (mine_total cells.now)) cells.now
        (start_cell columns start_row start_column) (eqb (get_or counts.new 0 0) 1) (get_or counts.new 1 0) picture.new }
{
    let verdict = is_solvable_total(
        rows,
        columns,
        start_row,
        start_column,
        cells,
        picture,
        opened_in,
    );
    put_verdict(verdict, counts)
}
