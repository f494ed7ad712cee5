// The equations of a position alone, in the order of their sources: no block grows, and the cells of an equation stay in the window's order. The direct rule
// needs no more, since what it finds depends neither on blocks nor on an order.
ghost use Rattle.std.specs.Prelude.{◌≡◌, ◌+◌, ◌-◌, ◌*◌, ◌≤◌, ◌<◌, replicate};
ghost use Rattle.grid.specs.Cells.{shows};
ghost use Rattle.grid.specs.Window.{neighbours_on, Board};
ghost use Rattle.sources.specs.Equations.{rest_at, plain_equations, EquationsHeld};

use super::{SourceList, Sources};
use blocks::{put_slots, slots_at};
use grid::window::{Size, wide};

// A number less known mines, plus 8, so that none is below 0.
fn less_known(number: u8, known: u8) -> u8
    requires { (number ≤ 8) × (known ≤ 8) }
    ensures { result ≡ (number + 8) - known }
{
    number + 8 - known
}

// The remainder of a source's equation plus 8: its number less its neighbouring known mines.
pub fn rest_of(size: Size, position: &[u8], c: usize) -> u8
    requires board { Board position.now size.rows size.columns }
    requires c_bound { (c < size.rows * size.columns) × (shows position.now c ≤ 8) }
    ensures { result ≡ rest_at (neighbours_on size) position.now c }
{
    let known = size.count_beside(position, c / size.columns, c % size.columns, 11);
    less_known(position[c], known as u8)
}

// The equation of each source, one after another: its closed neighbours in eight slots, and its number less its neighbouring known mines, plus 8. They are
// written in the caller's arrays: a struct of this size was copied twice on its way to the sweeps.
pub fn read_equations(
    size: Size,
    position: &[u8],
    slots: &mut [u16; 8192],
    rests: &mut [u8; 1024],
) -> usize
    requires board { Board position.now size.rows size.columns }
    requires slots_value { (slots.old ≡ replicate 8192 65535) × (rests.old ≡ replicate 1024 0) }
    ensures { EquationsHeld (plain_equations (neighbours_on size) position.now) slots.new rests.new result }
{
    let mut sources = Sources {
        beside: [65535; 8192],
        list: SourceList {
            cells: [0; 1024],
            len: 0,
        },
    };
    sources.read(size, position);
    let beside = &sources.beside;
    for (i, &source) in sources.list.as_slice().iter().enumerate() {
        let c = wide(source);
        put_slots(slots, i, slots_at(beside, c));
        rests[i] = rest_of(size, position, c);
    }
    sources.list.len
}
