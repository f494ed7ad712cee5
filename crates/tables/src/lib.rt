// cal_all_solution: the solution table of one block of a position's frontier, a row for each solution and in it a byte for each group, in the order of
// weights of SPECIFICATION 11.4. Whether the rows fit the lent table is known before a byte is written: solutions are spent, not counted, from one more than there is room
// for, so the first walk ends as soon as the table is known to be too short. specs/Tables.antt says what a caller sees, specs/Listed.antt what that means.
#![tactic(auto)]

ghost use Rattle.std.specs.Prelude.{◌≡◌, ◌*◌, ◌<◌, leb, length};
ghost use mathlib.Core.List.{Memᴰ};
ghost use Rattle.blocks.specs.Blocks.{Block};
ghost use Rattle.blocks.specs.BlockSets.{blocks_of, Whole};
ghost use Rattle.blocks.specs.Places.{Stands, block_between};
ghost use Rattle.groups.specs.Grouping.{Combinable};
ghost use Rattle.search.specs.Searching.{OrderOf, State, tree_at};
ghost use Rattle.tables.specs.Tables.{table_number, table_solutions, table_groups, table_seen, table_of, block_asked, cal_all_solution};
ghost use Rattle.tables.specs.Listed.{TableCall};

use blocks::{BlockSet, Bounds};
use frontier::read_blocks;
use grid::window::Size;
use groups::{Grouped, combine};
use orders::weigh;
use refusals::{Refusal, test_position};
use rows::put_rows;
use search::{Unmet, spend};

// How many solutions and groups a block has.
#[derive(Clone, Copy)]
pub struct TableAnswer {
    pub solutions: usize,
    pub groups: usize,
}

// Do the solutions have room in so many bytes? They are spent from one row more than there is room for: nothing is left of that where they are too many.
fn rows_fit(grouped: &Grouped, order: &[u16; 1024], room: usize) -> bool
    requires ordered { OrderOf grouped.now order.now }
    requires state { State grouped.now.equations grouped.now.needs grouped.now.rooms }
    requires groups_nonzero { (0 < grouped.now.groups) × (room < 9223372036854775808) }
    ensures { result ≡ leb (length (tree_at order.now grouped.now.groups grouped.now.sizes grouped.now.columns 0 grouped.now.needs grouped.now.rooms)
        * grouped.now.groups) room }
{
    let mut unmet = Unmet::at_first(grouped);
    let mut values = [0u8; 1024];
    let most = room / grouped.groups;
    let left = spend(grouped, order, 0, &mut unmet, &mut values, most + 1);
    0 < left
}

// The table of the block between these bounds.
pub fn put_table(set: &BlockSet, bounds: Bounds, table: &mut [u8]) -> Result<TableAnswer, Refusal>
    requires arrays { Stands set.now bounds }
    requires combinable { Combinable (block_between set.now bounds) }
    ensures { table_seen result table.new ≡ table_of (block_between set.now bounds) table.old }
{
    let grouped = combine(set, bounds);
    let groups = grouped.groups;
    if grouped.negative {
        return Ok(TableAnswer {
            solutions: 0,
            groups,
        });
    }
    let order = weigh(&grouped.columns, groups, grouped.equations);
    if !rows_fit(&grouped, &order, table.len()) {
        return Err(Refusal::Table);
    }
    let mut unmet = Unmet::at_first(&grouped);
    let mut values = [0u8; 1024];
    let solutions = put_rows(&grouped, &order, 0, &mut unmet, &mut values, table, 0);
    Ok(TableAnswer { solutions, groups })
}

// The table of a block of a set, by its number.
fn put_asked(set: &BlockSet, block: usize, table: &mut [u8]) -> Result<TableAnswer, Refusal>
    requires whole { Whole set.now }
    requires combinable { (b : Block) → Memᴰ b (blocks_of set.now) → Combinable b }
    ensures { table_seen result table.new ≡ block_asked (blocks_of set.now) block table.old }
{
    if set.blocks <= block {
        return Err(Refusal::Block);
    }
    put_table(set, set.bounds_at(block), table)
}

// cal_all_solution on a position: refusals 1 to 3, then 8, then 9.
pub fn cal_all_solution(
    size: Size,
    position: &[u8],
    block: usize,
    table: &mut [u8],
) -> Result<TableAnswer, Refusal>
    ensures table_after { table_seen result table.new ≡ cal_all_solution size.edgeless size.rows size.columns position.now block table.old }
    ensures listed { TableCall size.edgeless size.rows size.columns position.now block table.old
        (table_number result) (table_solutions result) (table_groups result) table.new }
{
    test_position(size, position)?;
    let set = read_blocks(size, position);
    put_asked(&set, block, table)
}
