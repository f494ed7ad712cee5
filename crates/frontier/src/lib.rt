// refresh_matrixs: the frontier of a position as a block set, in the Rust's order. First the sources (open cells with a closed neighbour) are
// listed in reading order, each with its closed neighbours; then blocks grow from the first source left, and their cells and equations are written
// one block after another.
#![tactic(auto)]

pub mod counts;

ghost use Rattle.std.specs.Prelude.{◌≡◌};
ghost use Rattle.grid.specs.Window.{neighbours_on, Board};
ghost use Rattle.blocks.specs.BlockSets.{block_set};
ghost use Rattle.frontier.specs.Frontier.{frontier};
ghost use Rattle.frontier.specs.Answer.{refresh_matrixs};

use blocks::{BlockSet, empty_set};
use filling::{fill_cells, fill_equations};
use grid::window::Size;
use growth::{drop_first, grow_block};
use refusals::{Refusal, test_position};
use sources::{SourceList, Sources};

// What refresh_matrixs answers: the blocks, the closed cells that touch no open one, and the known mines.
#[derive(Drop)]
pub struct FrontierAnswer {
    pub blocks: BlockSet,
    pub inside_cell: usize,
    pub is_minenum: usize,
}

// The frontier of a position.
pub fn refresh_matrixs(size: Size, position: &[u8]) -> Result<FrontierAnswer, Refusal>
    ensures { result ≡ refresh_matrixs size.edgeless size.rows size.columns position.now }
{
    test_position(size, position)?;
    Ok(FrontierAnswer {
        blocks: read_blocks(size, position),
        inside_cell: counts::inside_cells(size, position),
        is_minenum: counts::known_mines(position),
    })
}

// The blocks of a position, of any size that the tests accept.
pub fn read_blocks(size: Size, position: &[u8]) -> BlockSet
    requires { Board position.now size.rows size.columns }
    ensures { result ≡ block_set (frontier (neighbours_on size) position.now) }
{
    let mut sources = Sources {
        beside: [65535; 8192],
        list: SourceList {
            cells: [0; 1024],
            len: 0,
        },
    };
    sources.read(size, position);
    let Sources { beside, list: left } = &mut sources;
    let mut found = SourceList {
        cells: [0; 1024],
        len: 0,
    };
    let mut places = [0; 1024];
    let mut set = empty_set();
    let mut k = 0;
    let mut e = 0;
    while 0 < left.len {
        grow_block(size, beside, left, &mut found);
        let part = found.as_slice();
        k = fill_cells(beside, part, &mut places, &mut set.cells, k);
        e = fill_equations(
            size,
            position,
            beside,
            &places,
            part,
            &mut set.slots,
            &mut set.rests,
            e,
        );
        set.end_block(k, e);
        drop_first(left);
    }
    set
}
