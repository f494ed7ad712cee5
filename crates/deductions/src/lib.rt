// The three rules as calls on a position: each tests its input, reads a fresh frontier, hands out two lists of cells and marks them. `deduce` is any of them by
// its rule, and the three calls are `deduce` of one rule each. specs/Answers.antt says what a caller sees, specs/Calls.antt what that means and
// specs/Contradictions.antt where it is refusal 6: the first clause of each call gives every byte, the others what demand 2 asks of it.
#![tactic(auto)]

pub mod answer;

ghost use Rattle.std.specs.Prelude.{◌≡◌, Bool, length, IfOk};
ghost use mathlib.Core.List.{List, Memᴰ};
ghost use Rattle.grid.specs.Window.{neighbours_on};
ghost use Rattle.refusals.specs.Refusals.{Accepted, tested_number};
ghost use Rattle.refusals.specs.Tests.{deduction_tested};
ghost use Rattle.fitting.specs.Layouts.{Fits};
ghost use Rattle.blocks.specs.Blocks.{Block};
ghost use Rattle.blocks.specs.BlockSets.{blocks_of, Whole};
ghost use Rattle.marks.specs.Marked.{Ready};
ghost use Rattle.direct.specs.Answers.{rule_answer};
ghost use Rattle.groups.specs.Grouping.{Combinable};
ghost use Rattle.deductions.specs.Answers.{seen, safe_count, mine_count, deduction, solve_direct, solve_minus, solve_enumerate};
ghost use Rattle.deductions.specs.Calls.{SoundCall, CompleteCall};
ghost use Rattle.deductions.specs.Contradictions.{DirectRefuses, MinusRefuses, EnumerateRefuses};
ghost use Rattle.deductions.specs.ByRule.{rule_on, CompleteBy, RefusesBy};

use answer::{DeductionAnswer, give_answer};
use blocks::BlockSet;
use direct::answer::{Contradiction, RuleAnswer};
use direct::direct::direct_rule;
use enumeration::enumerate::enumerate_rule;
use frontier::read_blocks;
use grid::window::Size;
use refusals::{Refusal, test_deduction};
use subtraction::minus_rule;

// The rules that can be called on a position.
#[derive(Clone, Copy)]
pub enum Rule {
    Direct,
    Minus,
    Enumerate,
}

// A rule on blocks that are fit for each.
fn run_rule(rule: Rule, set: BlockSet) -> Result<RuleAnswer, Contradiction>
    requires whole { Whole set }
    requires ready { Ready (blocks_of set) }
    requires combinable { (b : Block) → Memᴰ b (blocks_of set) → Combinable b }
    ensures value { result ≡ rule_answer (rule_on rule (blocks_of set)) }
    ensures left_whole { IfOk result (λ (answer : RuleAnswer). Whole answer.left) }
{
    match rule {
        Rule::Direct => direct_rule(set),
        Rule::Minus => minus_rule(set),
        Rule::Enumerate => enumerate_rule(set),
    }
}

// A rule called on a position: refusals 1 to 3, then 6.
pub fn deduce(
    rule: Rule,
    size: Size,
    position: &mut [u8],
    safe: &mut [u16],
    mines: &mut [u16],
) -> Result<DeductionAnswer, Refusal>
    ensures mines_after { seen result position.new safe.new mines.new ≡ deduction (rule_on rule) size.edgeless size.rows size.columns position.old safe.old mines.old }
    ensures sound { SoundCall size.edgeless size.rows size.columns position.old safe.old mines.old
        (tested_number result) (safe_count result) (mine_count result) position.new safe.new mines.new }
    ensures complete { CompleteBy rule size.edgeless size.rows size.columns position.old safe.old mines.old
        (tested_number result) (safe_count result) (mine_count result) safe.new mines.new }
    ensures six { RefusesBy rule size.edgeless size.rows size.columns position.old safe.old mines.old (tested_number result) }
{
    test_deduction(size, position, safe.len(), mines.len())?;
    let found = run_rule(rule, read_blocks(size, position));
    give_answer(found, position, safe, mines)
}

// solve_direct on a position: refusals 1 to 3, then 6.
pub fn solve_direct(
    size: Size,
    position: &mut [u8],
    safe: &mut [u16],
    mines: &mut [u16],
) -> Result<DeductionAnswer, Refusal>
    ensures mines_after { seen result position.new safe.new mines.new ≡ solve_direct size.edgeless size.rows size.columns position.old safe.old mines.old }
    ensures sound { SoundCall size.edgeless size.rows size.columns position.old safe.old mines.old
        (tested_number result) (safe_count result) (mine_count result) position.new safe.new mines.new }
    ensures six { DirectRefuses size.edgeless size.rows size.columns position.old safe.old mines.old (tested_number result) }
{
    deduce(Rule::Direct, size, position, safe, mines)
}

// solve_minus on a position: refusals 1 to 3, then 6.
pub fn solve_minus(
    size: Size,
    position: &mut [u8],
    safe: &mut [u16],
    mines: &mut [u16],
) -> Result<DeductionAnswer, Refusal>
    ensures mines_after { seen result position.new safe.new mines.new ≡ solve_minus size.edgeless size.rows size.columns position.old safe.old mines.old }
    ensures sound { SoundCall size.edgeless size.rows size.columns position.old safe.old mines.old
        (tested_number result) (safe_count result) (mine_count result) position.new safe.new mines.new }
    ensures six { MinusRefuses size.edgeless size.rows size.columns position.old safe.old mines.old (tested_number result) }
{
    deduce(Rule::Minus, size, position, safe, mines)
}

// solve_enumerate on a position: refusals 1 to 3, then 6.
pub fn solve_enumerate(
    size: Size,
    position: &mut [u8],
    safe: &mut [u16],
    mines: &mut [u16],
) -> Result<DeductionAnswer, Refusal>
    ensures mines_after { seen result position.new safe.new mines.new ≡ solve_enumerate size.edgeless size.rows size.columns position.old safe.old mines.old }
    ensures sound { SoundCall size.edgeless size.rows size.columns position.old safe.old mines.old
        (tested_number result) (safe_count result) (mine_count result) position.new safe.new mines.new }
    ensures complete { deduction_tested size.rows size.columns position.old (length safe.old) (length mines.old) ≡ Accepted
        → (layout : List Bool) → Fits (neighbours_on size) position.old layout
        → CompleteCall (neighbours_on size) position.old (tested_number result) (safe_count result) (mine_count result) safe.new mines.new }
    ensures six { EnumerateRefuses size.edgeless size.rows size.columns position.old safe.old mines.old (tested_number result) }
{
    deduce(Rule::Enumerate, size, position, safe, mines)
}
