// solve_minus on a block set. Of two equations that share a cell, where the one has as many own cells as it has mines more, these are mines and the other's
// own cells are safe. All ordered pairs of a block's equations are looked at before a cell is taken out; an equation beside itself has no own cells and
// marks none. Then the direct rule runs on what is left.
#![tactic(auto)]

pub mod own;

ghost use Rattle.std.specs.Prelude.{◌≡◌, true, ◌||◌, ℕ, ◌≤◌, ◌<◌, length, get_or, IfOk};
ghost use Rattle.lists.specs.Lists.{range, any, all, has};
ghost use Rattle.blocks.specs.Blocks.{BlockEquation};
ghost use Rattle.blocks.specs.BlockSets.{blocks_of, small_equation, Whole};
ghost use Rattle.blocks.specs.Places.{marked, Slots, bounds_of, equations_from, equations_between};
ghost use Rattle.marks.specs.Marked.{Ready, left_equations};
ghost use Rattle.direct.specs.Answers.{rule_answer, swept_lists};
ghost use Rattle.direct.specs.declared.answer.RuleAnswer.{RuleAnswer};
ghost use Rattle.subtraction.specs.Minus.{own_cells, some_pair, subtraction};
ghost use Rattle.subtraction.specs.Pairs.{Once, equation_in, some_other, Subtracts, minus_lists};

use blocks::{BlockSet, Bounds, NO_CELL, marks_of, slots_at};
use chunks::chunk_matrixes;
use direct::answer::{Contradiction, Lists, RuleAnswer};
use direct::direct::{direct_rule, swept_cells};
use grid::window::{wide, wide_byte};
use marks::left::{Known, left_blocks, left_equations};
use marks::listing::list_blocks;
use marks::{count_marked, marked_in_one};
use own::mark_own;

// What pairs of equations mark: mines, and safe cells.
#[derive(Drop)]
pub struct PairMarks {
    pub mines: [u8; 1024],
    pub safe: [u8; 1024],
}

// Holds one equation against each of its block: marks the mines and the safe cells that follow.
fn subtract_from(set: &BlockSet, bounds: Bounds, e: usize, marks: &mut PairMarks)
    requires slots { Slots set.now.slots bounds.end_equation × Once set.now.slots bounds.end_equation }
    requires inside { e < bounds.end_equation }
    ensures mines { (d : ℕ) → marked marks.new.mines d ≡ (marked marks.old.mines d
        || some_other (λ (x : BlockEquation). λ (y : BlockEquation). has (own_cells x y) d) (equation_in set.now.slots set.now.rests e) (equations_between set.now bounds)) }
    ensures safe { (d : ℕ) → marked marks.new.safe d ≡ (marked marks.old.safe d
        || some_other (λ (x : BlockEquation). λ (y : BlockEquation). has (own_cells y x) d) (equation_in set.now.slots set.now.rests e) (equations_between set.now bounds)) }
{
    let list = slots_at(&set.slots, e);
    let len = list.len;
    let own = marks_of(list);
    let rest = wide_byte(set.rests[e]);
    for f in bounds.first_equation..bounds.end_equation {
        let other = slots_at(&set.slots, f);
        let shared = count_marked(&own, other);
        if 0 < shared {
            if rest + shared == wide_byte(set.rests[f]) + len {
                mark_own(list, other, &mut marks.mines);
                mark_own(other, list, &mut marks.safe);
            }
        }
    }
}

// All ordered pairs of equations of a block.
fn subtract_pairs(set: &BlockSet, bounds: Bounds, marks: &mut PairMarks)
    requires { Slots set.now.slots bounds.end_equation × Once set.now.slots bounds.end_equation }
    ensures mines { (d : ℕ) → marked marks.new.mines d ≡ (marked marks.old.mines d
        || some_pair (λ (x : BlockEquation). λ (y : BlockEquation). has (own_cells x y) d) (equations_between set.now bounds)) }
    ensures safe { (d : ℕ) → marked marks.new.safe d ≡ (marked marks.old.safe d
        || some_pair (λ (x : BlockEquation). λ (y : BlockEquation). has (own_cells y x) d) (equations_between set.now bounds)) }
{
    for e in bounds.first_equation..bounds.end_equation {
        subtract_from(set, bounds, e, marks);
    }
}

// The pairs of each block.
fn subtract_blocks(set: &BlockSet) -> PairMarks
    requires few { set.now.blocks ≤ 1024 }
    requires slots { (b : ℕ) → b < set.now.blocks → Slots set.now.slots (get_or set.now.equation_ends b 0) × Once set.now.slots (get_or set.now.equation_ends b 0) }
    ensures mines { (d : ℕ) → marked result.mines d
        ≡ any (λ (b : ℕ). some_pair (λ (x : BlockEquation). λ (y : BlockEquation). has (own_cells x y) d) (equations_between set.now (bounds_of set.now b))) (range 0 set.now.blocks) }
    ensures safe { (d : ℕ) → marked result.safe d
        ≡ any (λ (b : ℕ). some_pair (λ (x : BlockEquation). λ (y : BlockEquation). has (own_cells y x) d) (equations_between set.now (bounds_of set.now b))) (range 0 set.now.blocks) }
{
    let mut marks = PairMarks {
        mines: [0; 1024],
        safe: [0; 1024],
    };
    for b in 0..set.blocks {
        subtract_pairs(set, set.bounds_at(b), &mut marks);
    }
    marks
}

// The direct rule's sweeps over what is left of equations once cells are known.
fn sweep_left(set: &BlockSet, equations: usize, known: &Known) -> Lists
    requires slots { Slots set.now.slots equations }
    requires small { all small_equation (equations_from set.now.slots set.now.rests 0 equations) ≡ true }
    requires subtracted { known.now.subtracted ≡ true }
    ensures { result ≡ swept_lists (left_equations true known.now.mines known.now.cells (equations_from set.now.slots set.now.rests 0 equations)) }
{
    let mut slots = [NO_CELL; 8192];
    let mut rests = [0u8; 1024];
    let len = left_equations(set, 0, equations, known, &mut slots, &mut rests, 0);
    swept_cells(&slots, &rests, len)
}

// What all pairs of equations tell: the cells that they mark, and the mines and the safe cells in lists.
#[derive(Drop)]
pub struct Subtracted {
    pub known: Known,
    pub lists: Lists,
}

// The pairs of all blocks: marks, and the rule's own lists.
fn subtract(set: &BlockSet) -> Subtracted
    requires whole { Whole set.now }
    requires ready { Ready (blocks_of set.now) }
    ensures { Subtracts (blocks_of set.now) result }
{
    let marks = subtract_blocks(set);
    let lists = Lists {
        safe: list_blocks(&set.cells, &set.cell_ends, set.blocks, &marks.safe),
        mines: list_blocks(&set.cells, &set.cell_ends, set.blocks, &marks.mines),
    };
    let known = Known {
        mines: marks.mines,
        cells: marked_in_one(&marks.mines, &marks.safe),
        subtracted: true,
    };
    Subtracted { known, lists }
}

// solve_minus on blocks: its own lists, then those of the direct rule on what is left, and the blocks that this leaves, split once more.
pub fn minus_rule(set: BlockSet) -> Result<RuleAnswer, Contradiction>
    requires whole { Whole set }
    requires ready { Ready (blocks_of set) }
    ensures value { result ≡ rule_answer (subtraction (blocks_of set)) }
    ensures left_whole { IfOk result (λ (answer : RuleAnswer). Whole answer.left) }
{
    let own = subtract(&set);
    let rule = direct_rule(left_blocks(set, &own.known))?;
    Ok(RuleAnswer {
        lists: own.lists.followed_by(rule.lists),
        left: chunk_matrixes(rule.left),
    })
}

// What solve_minus finds in blocks, its two lists alone: its own, then those of the sweeps over all equations that are left. No block is written anew.
pub fn minus_cells(set: BlockSet) -> Lists
    requires whole { Whole set }
    requires ready { Ready (blocks_of set) }
    ensures { result ≡ minus_lists (blocks_of set) }
{
    let own = subtract(&set);
    let equations = set.next_equation();
    let more = sweep_left(&set, equations, &own.known);
    own.lists.followed_by(more)
}
