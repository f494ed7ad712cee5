// What one pass finds at a position: the direct rule's cells, else those of subtraction, else those of enumeration, and on a board that shows its mine total else
// those of the total, with the grade of the rule that found them.
ghost use Rattle.std.specs.Prelude.{◌≡◌, Bool, ℕ, ◌*◌, Some};
ghost use mathlib.Core.List.{List, Memᴰ};
ghost use Rattle.grid.specs.Window.{neighbours_on, Board};
ghost use Rattle.lists.specs.Lists.{count};
ghost use Rattle.fitting.specs.Layouts.{Fits};
ghost use Rattle.blocks.specs.Blocks.{Block};
ghost use Rattle.blocks.specs.BlockSets.{blocks_of, Whole};
ghost use Rattle.marks.specs.Marked.{Ready};
ghost use Rattle.direct.specs.Answers.{rule_answer, lists_in};
ghost use Rattle.subtraction.specs.Pairs.{minus_lists};
ghost use Rattle.groups.specs.Grouping.{Combinable};
ghost use Rattle.enumeration.specs.Enumeration.{enumerated};
ghost use Rattle.enumeration.specs.ThreeRules.{three_rules};
ghost use Rattle.verdict.specs.Findings.{Finds, found_cell, later_finding, rules_at};

use blocks::{BlockSet, NO_CELL};
use direct::answer::{Lists, lists_of};
use direct::direct::swept_cells;
use enumeration::enumerate::enumerate_rule;
use frontier::read_blocks;
use grid::window::Size;
use sources::equations::read_equations;
use subtraction::minus_cells;
use total_rule::find_by_total;

// The two lists of cells that a rule found, and its grade.
#[derive(Drop)]
pub struct Finding {
    pub lists: Lists,
    pub grade: usize,
}

// Did a rule find a cell?
fn found_cell(found: &Lists) -> bool
    ensures { result ≡ found_cell found.now }
{
    found.safe.count != 0 || found.mines.count != 0
}

// Subtraction on blocks, then enumeration.
fn find_in_blocks(set: BlockSet) -> Finding
    requires whole { Whole set }
    requires ready { Ready (blocks_of set) }
    requires combinable { (b : Block) → Memᴰ b (blocks_of set) → Combinable b }
    ensures { result ≡ later_finding (minus_lists (blocks_of set)) (lists_in (rule_answer (enumerated (blocks_of set)))) }
{
    let minus = minus_cells(set);
    if found_cell(&minus) {
        return Finding {
            lists: minus,
            grade: 2,
        };
    }
    Finding {
        lists: lists_of(enumerate_rule(set)),
        grade: 3,
    }
}

// What a pass finds. The direct rule needs the equations alone, and only where it finds nothing are the blocks read. A layout fits, so no rule
// meets a contradiction, and none is asked for.
pub fn find_cells(size: Size, position: &[u8]) -> Finding
    requires board { Board position.now size.rows size.columns }
    requires fits { (m : List Bool) × Fits (neighbours_on size) position.now m }
    ensures { Finds (size.rows * size.columns) (three_rules (neighbours_on size) position.now) result }
{
    let mut slots = [NO_CELL; 8192];
    let mut rests = [0u8; 1024];
    let len = read_equations(size, position, &mut slots, &mut rests);
    let direct = swept_cells(&slots, &rests, len);
    if found_cell(&direct) {
        return Finding {
            lists: direct,
            grade: 1,
        };
    }
    find_in_blocks(read_blocks(size, position))
}

// What a pass finds, on a board that shows its mine total or not: the total is asked only where the three rules find nothing.
pub fn find_in_pass(size: Size, position: &[u8], total: Option<usize>) -> Finding
    requires board { Board position.now size.rows size.columns }
    requires fits { (m : List Bool) × Fits (neighbours_on size) position.now m × ((shown : ℕ) → total ≡ Some shown → count (λ x. x) m ≡ shown) }
    ensures { Finds (size.rows * size.columns) (rules_at total (neighbours_on size) position.now) result }
{
    let found = find_cells(size, position);
    let Some(shown) = total else {
        return found;
    };
    if found.lists.safe.count + found.lists.mines.count != 0 {
        return found;
    }
    Finding {
        lists: find_by_total(size, position, shown),
        grade: 5,
    }
}
