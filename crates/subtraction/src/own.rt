// Of two lists of cells: the own cells of one, those that the other lacks, marked beside others.
ghost use Rattle.std.specs.Prelude.{◌≡◌, not, ◌||◌, ℕ, take};
ghost use Rattle.lists.specs.Lists.{keep, has};
ghost use Rattle.blocks.specs.Places.{marked, OnBoard};

use grid::window::{UpToEight, wide};

// Marks the cells of a list that another lacks.
pub fn mark_own(list: UpToEight, other: UpToEight, marks: &mut [u8; 1024])
    requires { OnBoard list × OnBoard other }
    ensures { (d : ℕ) → marked marks.new d
        ≡ (marked marks.old d || has (keep (λ c. not (has (take other.len other.cells) c)) (take list.len list.cells)) d) }
{
    for &cell in list.as_slice() {
        if !other.as_slice().contains(&cell) {
            marks[wide(cell)] = 1;
        }
    }
}
