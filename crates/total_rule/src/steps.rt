// The three steps of the fourth rule: each block's possible mine counts; the counts that the other blocks and the inside cells leave it, so that its solutions with
// such a count are left; and the rest on the inside cells. What solutions show of a block's groups goes to its cells.
ghost use Rattle.std.specs.Prelude.{◌≡◌, true, ◌&&◌, ℕ, ◌+◌, ◌-◌, ◌*◌, ◌≤◌, ◌<◌, leb, eqb, length, get_or};
ghost use mathlib.Core.List.{List, ◌∷◌, Memᴰ};
ghost use Rattle.lists.specs.Lists.{bit, nodup};
ghost use Rattle.blocks.specs.Blocks.{Block};
ghost use Rattle.blocks.specs.BlockSets.{all_cells, blocks_of, Whole};
ghost use Rattle.blocks.specs.Places.{Stands, block_between};
ghost use Rattle.groups.specs.Grouping.{Combinable};
ghost use Rattle.frontier.specs.Frontier.{frontier, inside_cells};
ghost use Rattle.totals.specs.Totals.{up_to, sums_to, mines_left};
ghost use Rattle.totals.specs.Joining.{counts_but, EndsInOrder};
ghost use Rattle.total_rule.specs.Cells.{Filled};
ghost use Rattle.total_rule.specs.Blocks.{TableBelow, count_allowed, mine_allowed, free_allowed, ToldBlock, CountsHeld, CellsTold, mine_shown, free_shown, mine_stage, free_stage};

use super::cells::{put_counts, tell_cells, tell_inside};
use blocks::{BlockSet, Bounds};
use counting::block::count_block;
use counting::states::Met;
use groups::combine;
use totals::joining::{all_allowed, allowed_counts, counts_of, sums_but};

// How many tags the walk over a block takes at most.
const TAGS_OF_A_BLOCK: usize = 1050625;

// For each cell of the board: whether some layout has a mine in it, and whether one has it free; each 1 or 0, and 2 while it is not told.
#[derive(Drop)]
pub struct CellMarks {
    pub mined: [u8; 1024],
    pub unfilled: [u8; 1024],
}

impl CellMarks {
    // The solutions of a block with an allowed count: its cells are told what they show, and the counts that they have are answered.
    fn tell_block(
        &mut self,
        set: &BlockSet,
        bounds: Bounds,
        allowed: &[u8; 1025],
        first: usize,
        met: &mut Met,
    ) -> [u8; 1025]
        requires arrays { Stands set.now bounds × (bounds.first_cell ≤ bounds.end_cell) }
        requires combinable { Combinable (block_between set.now bounds) }
        requires table_below { TableBelow first met.old × (first ≤ 4000000000) }
        ensures by_index { (t : ℕ) → get_or result t 0 ≡ bit (count_allowed allowed.now (block_between set.now bounds) t) }
        ensures told_block { ToldBlock (block_between set.now bounds) (mine_allowed allowed.now (block_between set.now bounds)) self.old.mined self.new.mined }
        ensures told_block_2 { ToldBlock (block_between set.now bounds) (free_allowed allowed.now (block_between set.now bounds)) self.old.unfilled self.new.unfilled }
        ensures table_below_2 { TableBelow (first + 1050625) met.new }
    {
        let grouped = combine(set, bounds);
        let counted = count_block(&grouped, allowed, first, met);
        let cells = set.cells_of(bounds);
        tell_cells(cells, &grouped.group_of, &counted.mined, &mut self.mined);
        tell_cells(
            cells,
            &grouped.group_of,
            &counted.unfilled,
            &mut self.unfilled,
        );
        counted.reached
    }

    // Each block's possible mine counts, a place more than it has cells for each block; and what its solutions show.
    pub fn count_blocks(&mut self, set: &BlockSet, counts: &mut [u8; 2048], met: &mut Met)
        requires whole { Whole set.now × (nodup (all_cells (blocks_of set.now)) ≡ true) }
        requires combinable { (b : Block) → Memᴰ b (blocks_of set.now) → Combinable b }
        requires table_below { TableBelow 1 met.old }
        ensures counts_held { CountsHeld (blocks_of set.now) set.now.cell_ends counts.new (length (blocks_of set.now)) }
        ensures cells_told { CellsTold (blocks_of set.now) (length (blocks_of set.now)) (mine_shown (blocks_of set.now)) self.old.mined self.new.mined }
        ensures cells_told_2 { CellsTold (blocks_of set.now) (length (blocks_of set.now)) (free_shown (blocks_of set.now)) self.old.unfilled self.new.unfilled }
        ensures table_below_2 { TableBelow (1 + length (blocks_of set.now) * 1050625) met.new }
    {
        let allowed = [1u8; 1025];
        for b in 0..set.blocks {
            let bounds = set.bounds_at(b);
            let reached = self.tell_block(set, bounds, &allowed, 1 + b * TAGS_OF_A_BLOCK, met);
            let many = bounds.end_cell - bounds.first_cell + 1;
            put_counts(&reached, many, counts, bounds.first_cell + b);
        }
    }

    // The counts that the other blocks and the inside cells leave each block, `rest` mines in all; where a possible count is not left, its cells are told what
    // the solutions with the others show.
    pub fn join_blocks(
        &mut self,
        set: &BlockSet,
        counts: &[u8; 2048],
        inside: usize,
        rest: usize,
        met: &mut Met,
    )
        requires whole { Whole set.now × (nodup (all_cells (blocks_of set.now)) ≡ true) }
        requires combinable { (b : Block) → Memᴰ b (blocks_of set.now) → Combinable b }
        requires counts_held { CountsHeld (blocks_of set.now) set.now.cell_ends counts.now (length (blocks_of set.now)) × (inside ≤ 1024) × (rest ≤ 1024) }
        requires table_below { TableBelow (1 + length (blocks_of set.now) * 1050625) met.old }
        ensures by_index { (near : ℕ → List ℕ) (p before : List ℕ) (total : ℕ) → blocks_of set.now ≡ frontier near p → inside ≡ inside_cells near p → rest ≡ mines_left total p
            → CellsTold (blocks_of set.now) (length (blocks_of set.now)) (mine_shown (blocks_of set.now)) before self.old.mined
            → CellsTold (blocks_of set.now) (length (blocks_of set.now)) (mine_stage near p total (blocks_of set.now) (length (blocks_of set.now))) before self.new.mined }
        ensures by_index_2 { (near : ℕ → List ℕ) (p before : List ℕ) (total : ℕ) → blocks_of set.now ≡ frontier near p → inside ≡ inside_cells near p → rest ≡ mines_left total p
            → CellsTold (blocks_of set.now) (length (blocks_of set.now)) (free_shown (blocks_of set.now)) before self.old.unfilled
            → CellsTold (blocks_of set.now) (length (blocks_of set.now)) (free_stage near p total (blocks_of set.now) (length (blocks_of set.now))) before self.new.unfilled }
    {
        for b in 0..set.blocks {
            let sums = sums_but(set, counts, b, inside, rest);
            let allowed = allowed_counts(&sums, rest);
            if !all_allowed(counts_of(set, counts, b), &allowed) {
                let bounds = set.bounds_at(b);
                self.tell_block(
                    set,
                    bounds,
                    &allowed,
                    1 + (set.blocks + b) * TAGS_OF_A_BLOCK,
                    met,
                );
            }
        }
    }

    // The rest on the inside cells: they may be mines where the blocks and the other ones can hold one less, and free where these can hold all.
    pub fn place_rest(&mut self, set: &BlockSet, counts: &[u8; 2048], inside: usize, rest: usize)
        requires { EndsInOrder set.now.cell_ends set.now.blocks × (inside ≤ 1024) × (rest ≤ 1024) }
        ensures filled { 0 < inside → Filled (bit (leb 1 rest && sums_to (up_to (inside - 1) ∷ counts_but counts.now set.now.cell_ends set.now.blocks set.now.blocks) (rest - 1)))
            self.old.mined self.new.mined }
        ensures filled_2 { 0 < inside → Filled (bit (sums_to (up_to (inside - 1) ∷ counts_but counts.now set.now.cell_ends set.now.blocks set.now.blocks) rest))
            self.old.unfilled self.new.unfilled }
        ensures mined_unchanged { inside ≡ 0 → (self.new.mined ≡ self.old.mined) × (self.new.unfilled ≡ self.old.unfilled) }
    {
        if inside == 0 {
            return;
        }
        let sums = sums_but(set, counts, set.blocks, inside - 1, rest);
        let mut mine = 0;
        if 0 < rest {
            mine = bit_at(&sums, rest - 1);
        }
        tell_inside(&mut self.mined, mine);
        tell_inside(&mut self.unfilled, bit_at(&sums, rest));
    }
}

// 1 where a sum is reached, else 0.
fn bit_at(sums: &[u8; 1025], n: usize) -> u8
    requires { n ≤ 1024 }
    ensures { result ≡ bit (eqb (get_or sums.now n 0) 1) }
{
    u8::from(sums[n] == 1)
}
