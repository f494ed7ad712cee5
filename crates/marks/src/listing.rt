// Lists of cells with their counts; and cells of blocks listed by their marks: in each block in its cell order, blocks from the last to the first.
ghost use Rattle.std.specs.Prelude.{◌≡◌, [], ◌+◌, ◌≤◌, length, take};
ghost use Rattle.std.proofs.lemmas.List.Edits.{sets};
ghost use Rattle.blocks.specs.Places.{Cells};
ghost use Rattle.marks.specs.Marked.{cells_with, Parts, all_with};
ghost use Rattle.marks.specs.CellLists.{cell_list, list_in, Appended};

use blocks::begin_at;
use grid::window::wide;

// A list of cells with its count. Entries past the count are 0.
#[derive(Drop)]
pub struct CellList {
    pub cells: [u16; 1024],
    pub count: usize,
}

impl CellList {
    // No cell.
    pub fn none() -> CellList
        ensures { result ≡ cell_list [] }
    {
        CellList {
            cells: [0; 1024],
            count: 0,
        }
    }

    // The listed cells alone.
    pub fn as_slice(&self) -> &[u16]
        requires { self.now.count ≤ 1024 }
        ensures { result.now ≡ list_in self.now }
    {
        &self.cells[..self.count]
    }

    // This list with another behind it.
    pub fn followed_by(self, more: CellList) -> CellList
        requires { self.count + more.count ≤ 1024 }
        ensures { Appended self more result }
    {
        let mut cells = self.cells;
        put_list(more.as_slice(), &mut cells, self.count);
        CellList {
            cells,
            count: self.count + more.count,
        }
    }
}

// The cells between two places that have this mark go to `out` from place `at` on.
pub fn list_cells(
    cells: &[u16; 1024],
    first: usize,
    end: usize,
    marks: &[u8; 1024],
    mark: u8,
    out: &mut [u16; 1024],
    at: usize,
) -> usize
    requires cells { Cells cells.now end }
    requires out_len { length out.old ≡ 1024 }
    requires room { at + length (cells_with marks.now mark cells.now first end) ≤ 1024 }
    ensures value { result ≡ at + length (cells_with marks.now mark cells.now first end) }
    ensures out_after { out.new ≡ sets out.old at (cells_with marks.now mark cells.now first end) }
{
    let mut k = at;
    for i in first..end {
        let c = cells[i];
        if marks[wide(c)] == mark {
            out[k] = c;
            k += 1;
        }
    }
    k
}

// The marked cells of all blocks, from the last block to the first.
pub fn list_blocks(
    cells: &[u16; 1024],
    cell_ends: &[u16; 1024],
    blocks: usize,
    marks: &[u8; 1024],
) -> CellList
    requires parts { Parts cells.now cell_ends.now blocks }
    requires room { length (all_with marks.now cells.now cell_ends.now blocks) ≤ 1024 }
    ensures { result ≡ cell_list (all_with marks.now cells.now cell_ends.now blocks) }
{
    let mut out = [0u16; 1024];
    let mut k = 0;
    for b in (0..blocks).rev() {
        let first = begin_at(cell_ends, b);
        k = list_cells(cells, first, wide(cell_ends[b]), marks, 1, &mut out, k);
    }
    CellList {
        cells: out,
        count: k,
    }
}

// The numbers of a list go to `out` from place `at` on.
pub fn put_list(list: &[u16], out: &mut [u16], at: usize)
    requires { at + length list.now ≤ length out.old }
    ensures { out.new ≡ sets out.old at list.now }
{
    out[at..at + list.len()].copy_from_slice(list);
}
