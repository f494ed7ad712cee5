// What a call on a position answers, and how a rule's answer becomes one: the lists at the front of the lent slices, 12 at each safe cell of the position and
// 11 at each mine, written last. A contradiction writes nothing.
ghost use Rattle.std.specs.Prelude.{◌≡◌, IfOk, length};
ghost use Rattle.direct.specs.Answers.{found_in};
ghost use Rattle.deductions.specs.Answers.{after_found, Held, seen};

use blocks::BlockSet;
use direct::answer::{Contradiction, RuleAnswer};
use marks::listing::put_list;
use marks::write_at_cells;
use refusals::Refusal;

// What a call that deduces answers: how many cells the two lists have, and the blocks left.
#[derive(Drop)]
pub struct DeductionAnswer {
    pub safe: usize,
    pub mines: usize,
    pub blocks: BlockSet,
}

// Hands a rule's answer to the caller; a contradiction is refusal 6.
pub fn give_answer(
    found: Result<RuleAnswer, Contradiction>,
    position: &mut [u8],
    safe: &mut [u16],
    mines: &mut [u16],
) -> Result<DeductionAnswer, Refusal>
    requires { IfOk found (λ (answer : RuleAnswer). Held answer (length position.old) (length safe.old) (length mines.old)) }
    ensures { seen result position.new safe.new mines.new ≡ after_found (found_in found) position.old safe.old mines.old }
{
    let found = match found {
        Ok(found) => found,
        Err(Contradiction) => return Err(Refusal::Contradiction),
    };
    let safe_list = found.lists.safe;
    let mine_list = found.lists.mines;
    put_list(safe_list.as_slice(), safe, 0);
    put_list(mine_list.as_slice(), mines, 0);
    write_at_cells(safe_list.as_slice(), 12, position);
    write_at_cells(mine_list.as_slice(), 11, position);
    Ok(DeductionAnswer {
        safe: safe_list.count,
        mines: mine_list.count,
        blocks: found.left,
    })
}
