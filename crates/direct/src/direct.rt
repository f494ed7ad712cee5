// solve_direct on a block set. First sweep: the cells of each equation with as many mines as cells are mines. Second sweep: with these taken out, the cells
// of each equation with no mine left are safe. Both go from the last equation to the first, and in each from its last cell to its first. No cell stands
// in two blocks, so the sweeps need not know where a block ends.
ghost use Rattle.std.specs.Prelude.{◌≡◌, not, [], reverse, ◌-◌, ◌<◌, take, IfOk};
ghost use Rattle.lists.specs.Lists.{keep, add_new};
ghost use Rattle.blocks.specs.BlockSets.{blocks_of, Whole};
ghost use Rattle.blocks.specs.Places.{marked, Marks, OnBoard, Slots, equations_from};
ghost use Rattle.marks.specs.Marked.{Ready, Listed};
ghost use Rattle.direct.specs.Direct.{sure_mines, sure_safe, direct};
ghost use Rattle.direct.specs.Answers.{Sweeps, rule_answer, swept_lists};
ghost use Rattle.direct.specs.declared.answer.RuleAnswer.{RuleAnswer};

use super::answer::{Contradiction, Lists, RuleAnswer};
use blocks::{BlockSet, slots_at};
use chunks::chunk_matrixes;
use grid::window::{UpToEight, wide};
use marks::left::{Known, ZERO_REST, has_negative, left_blocks};
use marks::listing::CellList;
use marks::{count_marked, marked_in_one};

// The i-th of `len` places counted from the last, which is the 0-th.
fn from_last(len: usize, i: usize) -> usize
    requires { i < len }
    ensures { result ≡ len - i - 1 }
{
    len - i - 1
}

// The cells of a list from the last to the first, but those that are marked here or there, go behind the `at` cells of `out` and are marked here.
fn add_unmarked(
    list: UpToEight,
    there: &[u8; 1024],
    marks: &mut [u8; 1024],
    out: &mut [u16; 1024],
    at: usize,
) -> usize
    requires on_board { OnBoard list }
    requires listed { Listed marks.old out.old at }
    ensures still_listed { Listed marks.new out.new result }
    ensures out_after { take result out.new ≡ add_new (take at out.old) (keep (λ c. not (marked there.now c)) (reverse (take list.len list.cells))) }
{
    let cells = list.cells;
    let len = list.len;
    let mut n = at;
    for i in 0..len {
        let k = from_last(len, i);
        let c = wide(cells[k]);
        if there[c] != 1 {
            if marks[c] != 1 {
                marks[c] = 1;
                out[n] = cells[k];
                n += 1;
            }
        }
    }
    n
}

// First sweep. Nothing is marked as safe yet.
fn sweep_mines(
    slots: &[u16; 8192],
    rests: &[u8; 1024],
    equations: usize,
    safe: &[u8; 1024],
    marks: &mut [u8; 1024],
    out: &mut [u16; 1024],
) -> usize
    requires slots { Slots slots.now equations }
    requires marks { Marks safe.now [] }
    requires listed { Listed marks.old out.old 0 }
    ensures still_listed { Listed marks.new out.new result }
    ensures out_after { take result out.new ≡ sure_mines (equations_from slots.now rests.now 0 equations) }
{
    let mut n = 0;
    for e in (0..equations).rev() {
        let list = slots_at(slots, e);
        if rests[e] == ZERO_REST + list.len as u8 {
            n = add_unmarked(list, safe, marks, out, n);
        }
    }
    n
}

// Second sweep. An equation of the first has all its cells marked as mines and adds none.
fn sweep_safe(
    slots: &[u16; 8192],
    rests: &[u8; 1024],
    equations: usize,
    mines: &[u8; 1024],
    marks: &mut [u8; 1024],
    out: &mut [u16; 1024],
) -> usize
    requires slots { Slots slots.now equations }
    requires marks { Marks mines.now (sure_mines (equations_from slots.now rests.now 0 equations)) }
    requires listed { Listed marks.old out.old 0 }
    ensures still_listed { Listed marks.new out.new result }
    ensures out_after { take result out.new ≡ sure_safe (equations_from slots.now rests.now 0 equations) }
{
    let mut n = 0;
    for e in (0..equations).rev() {
        let list = slots_at(slots, e);
        if rests[e] == ZERO_REST + count_marked(mines, list) as u8 {
            n = add_unmarked(list, mines, marks, out, n);
        }
    }
    n
}

// What the two sweeps find: the mines and the safe cells, each marked, and in a list.
#[derive(Drop)]
pub struct Swept {
    pub mine_marks: [u8; 1024],
    pub safe_marks: [u8; 1024],
    pub lists: Lists,
}

// The two sweeps over equations, in whatever blocks and order.
fn sweep(slots: &[u16; 8192], rests: &[u8; 1024], equations: usize) -> Swept
    requires { Slots slots.now equations }
    ensures { Sweeps (equations_from slots.now rests.now 0 equations) result }
{
    let mut mine_marks = [0u8; 1024];
    let mut safe_marks = [0u8; 1024];
    let mut mines = [0u16; 1024];
    let mut safe = [0u16; 1024];
    let mine_count = sweep_mines(
        slots,
        rests,
        equations,
        &safe_marks,
        &mut mine_marks,
        &mut mines,
    );
    let safe_count = sweep_safe(
        slots,
        rests,
        equations,
        &mine_marks,
        &mut safe_marks,
        &mut safe,
    );
    Swept {
        mine_marks,
        safe_marks,
        lists: Lists {
            safe: CellList {
                cells: safe,
                count: safe_count,
            },
            mines: CellList {
                cells: mines,
                count: mine_count,
            },
        },
    }
}

// Their lists alone: what solve_direct finds at a position, from its equations, with no block read and none left.
pub fn swept_cells(slots: &[u16; 8192], rests: &[u8; 1024], equations: usize) -> Lists
    requires { Slots slots.now equations }
    ensures { result ≡ swept_lists (equations_from slots.now rests.now 0 equations) }
{
    let found = sweep(slots, rests, equations);
    found.lists
}

// solve_direct on blocks: the two sweeps, the contradiction where an equation left over is negative, and the blocks left, split anew.
pub fn direct_rule(set: BlockSet) -> Result<RuleAnswer, Contradiction>
    requires whole { Whole set }
    requires ready { Ready (blocks_of set) }
    ensures value { result ≡ rule_answer (direct (blocks_of set)) }
    ensures left_whole { IfOk result (λ (answer : RuleAnswer). Whole answer.left) }
{
    let equations = set.next_equation();
    let found = sweep(&set.slots, &set.rests, equations);
    let known = Known {
        mines: found.mine_marks,
        cells: marked_in_one(&found.mine_marks, &found.safe_marks),
        subtracted: false,
    };
    let left = left_blocks(set, &known);
    let end = left.next_equation();
    let rests = &left.rests[..end];
    if has_negative(rests) {
        return Err(Contradiction);
    }
    Ok(RuleAnswer {
        lists: found.lists,
        left: chunk_matrixes(left),
    })
}
