// What the solutions of a block with an allowed mine count show: which counts they have, which groups have a mine in one of them and which a free cell. The walk
// goes over the groups in their own order, and begins with what the block's equations need and have room for.
ghost use Rattle.std.specs.Prelude.{◌≡◌, ℕ, ◌+◌, ◌≤◌, ◌<◌, length, get_or};
ghost use Rattle.lists.specs.Lists.{range, pad};
ghost use Rattle.blocks.specs.Blocks.{Block};
ghost use Rattle.groups.specs.Grouping.{Combinable, grouped as groupedOf};
ghost use Rattle.counting.specs.Counting.{CountedBy};

use super::states::Met;
use super::walking::{Counted, Walk};
use groups::Grouped;
use search::Unmet;

// The groups in their own order.
fn own_order(groups: usize) -> [u16; 1024]
    requires { groups ≤ 1024 }
    ensures { result ≡ pad 1024 0 (range 0 groups) }
{
    let mut order = [0u16; 1024];
    for g in 0..groups {
        order[g] = g as u16;
    }
    order
}

// What the solutions of a block whose count is allowed show; nothing where a remainder is negative. The tags of the table are below `first`, where those of this
// walk begin.
pub fn count_block(grouped: &Grouped, allowed: &[u8; 1025], first: usize, met: &mut Met) -> Counted
    requires combinable { (b : Block) × Combinable b × (grouped.now ≡ groupedOf b) }
    requires tags_len { (length met.old.tags ≡ 8192) × (length met.old.keys ≡ 8192) × (length met.old.results ≡ 8192) × ((i : ℕ) → get_or met.old.tags i 0 < first) × (first ≤ 4000000000) }
    ensures counted_by { (b : Block) → Combinable b → grouped.now ≡ groupedOf b → CountedBy b allowed.now result }
    ensures tags_len_2 { (length met.new.tags ≡ 8192) × (length met.new.keys ≡ 8192) × (length met.new.results ≡ 8192) × ((i : ℕ) → get_or met.new.tags i 0 < first + 1050625) }
{
    let mut told = Counted {
        reached: [0; 1025],
        mined: [0; 1024],
        unfilled: [0; 1024],
    };
    if grouped.negative {
        return told;
    }
    let order = own_order(grouped.groups);
    let mut unmet = Unmet::at_first(grouped);
    let walk = Walk {
        grouped,
        order: &order,
        allowed,
        first,
    };
    walk.walk(0, 0, &mut unmet, &mut told, met);
    told
}
