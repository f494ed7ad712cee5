// The block set: blocks of equations in one struct of flat arrays, passed by value through the rules. Inside a rule its arrays are lent to the
// functions that loop. specs/BlockSets.antt says what the arrays hold.
#![tactic(auto)]

ghost use Rattle.std.specs.Prelude.{◌≡◌, [], ◌*◌, ◌≤◌, ◌<◌, length, take};
ghost use Rattle.std.proofs.lemmas.List.Edits.{sets};
ghost use Rattle.lists.specs.Lists.{any, pad};
ghost use Rattle.grid.specs.Window.{listed};
ghost use Rattle.blocks.specs.BlockSets.{block_set, slot_cells, begin_at};
ghost use Rattle.blocks.specs.Places.{marked, Marks, cells_in, OnBoard, bounds_of, cells_from, block_ended};

use grid::window::{UpToEight, wide};

// In a slot for a cell: no cell.
pub const NO_CELL: u16 = 65535;

#[derive(Clone, Copy)]
pub struct BlockSet {
    // The blocks' cells, block after block.
    pub cells: [u16; 1024],
    // For each block, where its cells end.
    pub cell_ends: [u16; 1024],
    // For each equation, eight slots for its cells.
    pub slots: [u16; 8192],
    // For each equation, its remainder plus 8.
    pub rests: [u8; 1024],
    // For each block, where its equations end.
    pub equation_ends: [u16; 1024],
    // How many blocks there are.
    pub blocks: usize,
}

// No blocks.
pub fn empty_set() -> BlockSet
    ensures { result ≡ block_set [] }
{
    BlockSet {
        cells: [0; 1024],
        cell_ends: [0; 1024],
        slots: [NO_CELL; 8192],
        rests: [0; 1024],
        equation_ends: [0; 1024],
        blocks: 0,
    }
}

// Writes a list of at most eight cells into the eight slots at place e.
pub fn put_slots(slots: &mut [u16; 8192], e: usize, list: UpToEight)
    requires { (length slots.old ≡ 8192) × (e < 1024) × (list.len ≤ 8) }
    ensures { slots.new ≡ sets slots.old (e * 8) (pad 8 65535 (take list.len list.cells)) }
{
    let own = &mut slots[e * 8..e * 8 + 8];
    own[..list.len].copy_from_slice(list.as_slice());
    own[list.len..].fill(NO_CELL);
}

// The cells in the eight slots at place e.
pub fn slots_at(slots: &[u16; 8192], e: usize) -> UpToEight
    requires { (length slots.now ≡ 8192) × (e < 1024) }
    ensures { result ≡ listed (slot_cells slots.now e) }
{
    let mut list = UpToEight::empty();
    for &cell in &slots[e * 8..e * 8 + 8] {
        if cell == NO_CELL {
            break;
        }
        list.push(cell);
    }
    list
}

// Where a block's cells and equations begin and end.
#[derive(Clone, Copy)]
pub struct Bounds {
    pub first_cell: usize,
    pub end_cell: usize,
    pub first_equation: usize,
    pub end_equation: usize,
}

// Where part k begins: at the end of the part before it.
pub fn begin_at(ends: &[u16; 1024], k: usize) -> usize
    requires { k ≤ 1024 }
    ensures { result ≡ begin_at ends.now k }
{
    if k == 0 { 0 } else { wide(ends[k - 1]) }
}

impl BlockSet {
    // Where block b of the set begins and ends.
    pub fn bounds_at(&self, b: usize) -> Bounds
        requires { b < 1024 }
        ensures { result ≡ bounds_of self.now b }
    {
        Bounds {
            first_cell: begin_at(&self.cell_ends, b),
            end_cell: wide(self.cell_ends[b]),
            first_equation: begin_at(&self.equation_ends, b),
            end_equation: wide(self.equation_ends[b]),
        }
    }

    // The cells between these bounds.
    pub fn cells_of(&self, bounds: Bounds) -> &[u16]
        requires { (bounds.first_cell ≤ bounds.end_cell) × (bounds.end_cell ≤ 1024) }
        ensures { result.now ≡ cells_from self.now.cells bounds.first_cell bounds.end_cell }
    {
        &self.cells[bounds.first_cell..bounds.end_cell]
    }

    // Where the cells of the next block begin.
    pub fn next_cell(&self) -> usize
        requires { self.now.blocks ≤ 1024 }
        ensures { result ≡ begin_at self.now.cell_ends self.now.blocks }
    {
        begin_at(&self.cell_ends, self.blocks)
    }

    // Where the equations of the next block begin.
    pub fn next_equation(&self) -> usize
        requires { self.now.blocks ≤ 1024 }
        ensures { result ≡ begin_at self.now.equation_ends self.now.blocks }
    {
        begin_at(&self.equation_ends, self.blocks)
    }

    // Ends the next block, whose cells and equations are in their arrays already.
    pub fn end_block(&mut self, end_cell: usize, end_equation: usize)
        requires { (self.old.blocks < 1024) × (end_cell ≤ 1024) × (end_equation ≤ 1024) }
        ensures { self.new ≡ block_ended self.old end_cell end_equation }
    {
        self.cell_ends[self.blocks] = end_cell as u16;
        self.equation_ends[self.blocks] = end_equation as u16;
        self.blocks += 1;
    }
}

// 1 at each cell of a list, 0 elsewhere.
pub fn marks_of(list: UpToEight) -> [u8; 1024]
    requires { OnBoard list }
    ensures { Marks result (cells_in list) }
{
    let mut marks = [0u8; 1024];
    for &cell in list.as_slice() {
        marks[wide(cell)] = 1;
    }
    marks
}

// Is a cell of the list marked?
pub fn meets_marks(marks: &[u8; 1024], list: UpToEight) -> bool
    requires { OnBoard list }
    ensures { result ≡ any (marked marks.now) (cells_in list) }
{
    for &cell in list.as_slice() {
        if marks[wide(cell)] == 1 {
            return true;
        }
    }
    false
}
