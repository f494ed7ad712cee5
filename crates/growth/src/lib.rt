// A block grows from the first source left: sources that share a closed cell with one found are found too, each list scanned from its last to its first,
// and the last source left moves into the gap of one that is taken.
#![tactic(auto)]

ghost use Rattle.std.specs.Prelude.{◌≡◌, ◌∷◌, ◌++◌, reverse, ◌+◌, ◌-◌, ◌≤◌, ◌<◌, length, get_or, take, drop};
ghost use Rattle.lists.specs.Lists.{keep, rotated};
ghost use Rattle.sources.specs.Reading.{sources_in, slots_meet, near_enough, Slots, Cells};
ghost use Rattle.growth.specs.Growth.{removed, grown};

use blocks::{marks_of, meets_marks, slots_at};
use grid::window::{Size, wide};
use sources::SourceList;

// Two cells further apart than this touch no cell in common. Without an edge their numbers don't tell.
fn near_enough(size: Size, c: usize, d: usize) -> bool
    requires { (size.columns ≤ 32) × (c < 1024) × (d < 1024) }
    ensures { result ≡ near_enough size.edgeless size.columns c d }
{
    let reach = 2 * size.columns + 2;
    size.edgeless || d <= c + reach && c <= d + reach
}

// Takes the sources that share a closed cell with c out of the sources left, the first of which is the block's own and stays.
fn take_sharing(
    size: Size,
    beside: &[u16; 8192],
    c: usize,
    left: &mut SourceList,
    found: &mut SourceList,
)
    requires slots { Slots size.edgeless size.columns beside.now }
    requires c_bound { c < 1024 }
    requires cells { Cells left.old.cells left.old.len }
    requires cells_2 { Cells found.old.cells found.old.len }
    requires le_left { (1 ≤ left.old.len) × (left.old.len + found.old.len ≤ 1025) }
    ensures left_after { sources_in left.new
        ≡ take 1 left.old.cells ++ removed (slots_meet beside.now c) (drop 1 (sources_in left.old)) }
    ensures found_after { sources_in found.new
        ≡ sources_in found.old ++ reverse (keep (slots_meet beside.now c) (drop 1 (sources_in left.old))) }
    ensures cells_3 { Cells left.new.cells left.new.len × Cells found.new.cells found.new.len }
    ensures le_left_2 { (1 ≤ left.new.len) × (left.new.len + found.new.len ≡ left.old.len + found.old.len) }
{
    let marks = marks_of(slots_at(beside, c));
    let mut t = left.len;
    while 1 < t {
        t -= 1;
        let source = left.cells[t];
        let d = wide(source);
        if near_enough(size, c, d) && meets_marks(&marks, slots_at(beside, d)) {
            found.push(source);
            left.len -= 1;
            left.cells[t] = left.cells[left.len];
        }
    }
}

// Grows the block of the first of the sources left; what the list `found` had before is forgotten.
pub fn grow_block(size: Size, beside: &[u16; 8192], left: &mut SourceList, found: &mut SourceList)
    requires slots { Slots size.edgeless size.columns beside.now }
    requires cells { Cells left.old.cells left.old.len × (1 ≤ left.old.len) }
    requires found_len { length found.old.cells ≡ 1024 }
    ensures found_after { sources_in found.new
        ≡ (grown (slots_meet beside.now) (get_or left.old.cells 0 0) (drop 1 (sources_in left.old))).found }
    ensures left_after { sources_in left.new
        ≡ get_or left.old.cells 0 0 ∷ (grown (slots_meet beside.now) (get_or left.old.cells 0 0) (drop 1 (sources_in left.old))).left }
    ensures cells_2 { Cells left.new.cells left.new.len × Cells found.new.cells found.new.len }
    ensures le_left { (1 ≤ left.new.len) × (left.new.len + found.new.len ≡ left.old.len + 1) }
{
    found.len = 0;
    found.push(left.cells[0]);
    let mut h = 0;
    while h < found.len {
        let c = wide(found.cells[h]);
        take_sharing(size, beside, c, left, found);
        h += 1;
    }
}

// The block's own source goes; the last one left moves into its place.
pub fn drop_first(left: &mut SourceList)
    requires { Cells left.old.cells left.old.len × (1 ≤ left.old.len) }
    ensures left_after { sources_in left.new ≡ rotated (drop 1 (sources_in left.old)) }
    ensures cells { Cells left.new.cells left.new.len × (left.new.len ≡ left.old.len - 1) }
{
    left.len -= 1;
    left.cells[0] = left.cells[left.len];
}
