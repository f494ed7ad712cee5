// The fourth rule, on a board that shows its mine total: each closed cell, on or off the frontier, that is the same in every layout that fits and holds that total. The
// known mines leave a rest to place. Each block's possible mine counts are worked out, the blocks are joined, and what they leave goes to the inside cells; a
// cell that no layout has as a mine is safe, and one that none has free is a mine.
#![tactic(auto)]

pub mod cells;
pub mod steps;

ghost use Rattle.std.specs.Prelude.{◌≡◌, Bool, List};
ghost use Rattle.lists.specs.Lists.{count};
ghost use Rattle.grid.specs.Window.{neighbours_on, Board};
ghost use Rattle.fitting.specs.Layouts.{Fits, of_total};
ghost use Rattle.fitting.specs.ForcedCells.{forced_cells};
ghost use Rattle.marks.specs.CellLists.{cell_list};

use cells::list_never;
use counting::states::Met;
use direct::answer::Lists;
use frontier::counts::{inside_cells, known_mines};
use frontier::read_blocks;
use grid::window::Size;
use steps::CellMarks;

// What the rule finds at a position, where some layout of the total fits.
pub fn find_by_total(size: Size, position: &[u8], total: usize) -> Lists
    requires board { Board position.now size.rows size.columns }
    requires fits { (m : List Bool) × Fits (neighbours_on size) position.now m × (count (λ x. x) m ≡ total) }
    ensures safe_value { result.safe ≡ cell_list (forced_cells (neighbours_on size) (of_total total) 5 position.now).safe }
    ensures mines_value { result.mines ≡ cell_list (forced_cells (neighbours_on size) (of_total total) 5 position.now).mines }
{
    let set = read_blocks(size, position);
    let inside = inside_cells(size, position);
    let known = known_mines(position);
    let rest = total - known;
    let mut counts = [0u8; 2048];
    let mut marks = CellMarks {
        mined: [2; 1024],
        unfilled: [2; 1024],
    };
    let mut met = Met {
        tags: [0; 8192],
        keys: [0; 8192],
        results: [0; 8192],
    };
    marks.count_blocks(&set, &mut counts, &mut met);
    marks.join_blocks(&set, &counts, inside, rest, &mut met);
    marks.place_rest(&set, &counts, inside, rest);
    let safe = list_never(position, &marks.mined);
    let mines = list_never(position, &marks.unfilled);
    Lists { safe, mines }
}
