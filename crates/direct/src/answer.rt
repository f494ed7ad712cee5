// What a rule on a block set answers: the direct rule, subtraction and enumeration.
ghost use Rattle.std.specs.Prelude.{◌≡◌, [], ◌+◌, ◌≤◌};
ghost use Rattle.direct.specs.Answers.{lists_of, lists_in, AppendedLists};

use blocks::BlockSet;
use marks::listing::CellList;

// The two lists of cells that a rule finds.
#[derive(Drop)]
pub struct Lists {
    pub safe: CellList,
    pub mines: CellList,
}

impl Lists {
    // No cell in either.
    pub fn none() -> Lists
        ensures { result ≡ lists_of [] [] }
    {
        Lists {
            safe: CellList::none(),
            mines: CellList::none(),
        }
    }

    // These lists, each with the other's behind it.
    pub fn followed_by(self, more: Lists) -> Lists
        requires { (self.safe.count + more.safe.count ≤ 1024) × (self.mines.count + more.mines.count ≤ 1024) }
        ensures { AppendedLists self more result }
    {
        Lists {
            safe: self.safe.followed_by(more.safe),
            mines: self.mines.followed_by(more.mines),
        }
    }
}

// What a rule finds in a block set: its lists, and the blocks that it leaves.
#[derive(Drop)]
pub struct RuleAnswer {
    pub lists: Lists,
    pub left: BlockSet,
}

// Nothing solves the equations: refusal 6.
#[derive(Clone, Copy)]
pub struct Contradiction;

// The lists of an answer; a contradiction has no cell in them.
pub fn lists_of(found: Result<RuleAnswer, Contradiction>) -> Lists
    ensures { result ≡ lists_in found }
{
    match found {
        Ok(answer) => answer.lists,
        Err(Contradiction) => Lists::none(),
    }
}
