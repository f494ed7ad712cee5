// solve_enumerate on a block set: the cells of the groups that no solution shows with a mine are safe, those of the groups that every solution fills are
// mines. Lists go by block, then group, then the group's cells in the block's order. A block without a solution is the contradiction.
ghost use Rattle.std.specs.Prelude.{◌≡◌, true, ◌+◌, ◌≤◌, eqb, ltb, length, get_or, IfOk};
ghost use mathlib.Core.List.{Memᴰ};
ghost use Rattle.std.proofs.lemmas.List.Edits.{sets};
ghost use Rattle.lists.specs.Lists.{all};
ghost use Rattle.blocks.specs.Blocks.{Block};
ghost use Rattle.blocks.specs.BlockSets.{blocks_of, Whole};
ghost use Rattle.direct.specs.Answers.{rule_answer};
ghost use Rattle.direct.specs.declared.answer.RuleAnswer.{RuleAnswer};
ghost use Rattle.groups.specs.Grouping.{Combinable};
ghost use Rattle.enumeration.specs.Enumeration.{enumerated};
ghost use Rattle.enumeration.specs.Listing.{cells_in_group, unmarked_groups, ListedBehind};

use super::asking::shown_by;
use blocks::{BlockSet, empty_set};
use direct::answer::{Contradiction, Lists, RuleAnswer};
use grid::window::wide;
use groups::{Grouped, combine};
use marks::listing::CellList;

// The cells of a group go behind those of the list.
fn list_group(cells: &[u16], group_of: &[u16; 1024], group: u16, list: &mut CellList)
    requires below { all (λ c. ltb c 1024) cells.now ≡ true }
    requires room { list.old.count + length (cells_in_group group_of.now cells.now group) ≤ 1024 }
    ensures { ListedBehind (cells_in_group group_of.now cells.now group) list.old list.new }
{
    for &cell in cells {
        if group_of[wide(cell)] == group {
            list.cells[list.count] = cell;
            list.count += 1;
        }
    }
}

// The cells of the groups that are not marked, group after group.
fn list_groups(cells: &[u16], grouped: &Grouped, marks: &[u8; 1024], list: &mut CellList)
    requires below { all (λ c. ltb c 1024) cells.now ≡ true }
    requires groups_bound { (grouped.now.groups ≤ 1024) × (length list.old.cells ≡ 1024) }
    requires room { list.old.count + length (unmarked_groups grouped.now.group_of marks.now cells.now 0 grouped.now.groups) ≤ 1024 }
    ensures { ListedBehind (unmarked_groups grouped.now.group_of marks.now cells.now 0 grouped.now.groups) list.old list.new }
{
    for g in 0..grouped.groups {
        if marks[g] != 1 {
            list_group(cells, &grouped.group_of, g as u16, list);
        }
    }
}

// solve_enumerate on blocks.
pub fn enumerate_rule(set: BlockSet) -> Result<RuleAnswer, Contradiction>
    requires whole { Whole set }
    requires combinable { (b : Block) → Memᴰ b (blocks_of set) → Combinable b }
    ensures value { result ≡ rule_answer (enumerated (blocks_of set)) }
    ensures left_whole { IfOk result (λ (answer : RuleAnswer). Whole answer.left) }
{
    let mut lists = Lists::none();
    for b in 0..set.blocks {
        let bounds = set.bounds_at(b);
        let grouped = combine(&set, bounds);
        let shown = shown_by(&set, bounds, &grouped);
        if shown.mined[0] + shown.unfilled[0] == 0 {
            return Err(Contradiction);
        }
        let cells = set.cells_of(bounds);
        list_groups(cells, &grouped, &shown.mined, &mut lists.safe);
        list_groups(cells, &grouped, &shown.unfilled, &mut lists.mines);
    }
    Ok(RuleAnswer {
        lists,
        left: empty_set(),
    })
}
