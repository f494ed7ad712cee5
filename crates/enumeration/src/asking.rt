// What the solutions of a block show of each group, without listing them. Groups that their equations leave one value are settled first. Then one solution is
// looked for; and of each other group one with a mine in it, and one in which it is not full, groups ordered outward from it. Each solution found answers for
// every group. What no solution shows is the same in all.
ghost use Rattle.std.specs.Prelude.{◌≡◌, true, false, ℕ, ◌≤◌, ◌<◌, ltb, get_or, take};
ghost use Rattle.lists.specs.Lists.{all};
ghost use Rattle.blocks.specs.Blocks.{Block};
ghost use Rattle.blocks.specs.BlockSets.{slot_cells};
ghost use Rattle.blocks.specs.Places.{Stands, block_between};
ghost use Rattle.groups.specs.Grouping.{Combinable, grouped as groupedOf};
ghost use Rattle.search.specs.Searching.{OrderOf, StateOf, tree_of, tree_of_values};
ghost use Rattle.orders.specs.Ordering.{Reach};
ghost use Rattle.orders.specs.WholeOrders.{in_order, Beginning};
ghost use Rattle.enumeration.specs.Asking.{shown, mine_in, free_in, Noted, Answered, OverGroups, ShownOnly, Told, SettledTold, Stays};

use blocks::{BlockSet, Bounds};
use grid::window::wide;
use groups::Grouped;
use search::{Unmet, spend, spend_values};
use settling::Settled;

// For each group 1 where some solution has a mine in it, and 1 where some solution leaves a cell of it free; else 0.
#[derive(Drop)]
pub struct Shown {
    pub mined: [u8; 1024],
    pub unfilled: [u8; 1024],
}

impl Shown {
    // Marks what one solution shows.
    fn note(&mut self, values: &[u8; 1024], grouped: &Grouped)
        requires { grouped.now.groups ≤ 1024 }
        ensures noted { Noted grouped.now.groups (mine_in values.now) self.old.mined self.new.mined }
        ensures noted_2 { Noted grouped.now.groups (free_in grouped.now.sizes values.now) self.old.unfilled self.new.unfilled }
    {
        for g in 0..grouped.groups {
            if 0 < values[g] {
                self.mined[g] = 1;
            }
            if values[g] < grouped.sizes[g] {
                self.unfilled[g] = 1;
            }
        }
    }

    // Looks for a solution with the settled groups at their values, which are the first of the order, and notes it.
    fn ask_any(
        &mut self,
        order: &[u16; 1024],
        grouped: &Grouped,
        settled: &Settled,
        unmet: &mut Unmet,
    )
        requires ordered { OrderOf grouped.now order.now }
        requires state { StateOf grouped.now unmet.old }
        requires at_le_groups { settled.now.begun.count ≤ grouped.now.groups }
        ensures unmet_unchanged { unmet.new ≡ unmet.old }
        ensures answered { Answered grouped.now settled.now.begun.count order.now settled.now.values
            (tree_of grouped.now order.now settled.now.begun.count unmet.old)
            self.old self.new }
    {
        let mut values = settled.values;
        let left = spend(grouped, order, settled.begun.count, unmet, &mut values, 1);
        if left == 0 {
            self.note(&values, grouped);
        }
    }

    // The same of solutions in which the first group that is not settled has from `from` to `to` mines.
    fn ask(
        &mut self,
        order: &[u16; 1024],
        grouped: &Grouped,
        settled: &Settled,
        unmet: &mut Unmet,
        from: u8,
        to: u8,
    )
        requires ordered { OrderOf grouped.now order.now }
        requires state { StateOf grouped.now unmet.old }
        requires at_lt_groups { (settled.now.begun.count < grouped.now.groups) × (to ≤ 8) }
        ensures unmet_unchanged { unmet.new ≡ unmet.old }
        ensures answered { Answered grouped.now settled.now.begun.count order.now settled.now.values
            (tree_of_values grouped.now order.now settled.now.begun.count from to unmet.old)
            self.old self.new }
    {
        let mut values = settled.values;
        let left = spend_values(
            grouped,
            order,
            settled.begun.count,
            from,
            to,
            unmet,
            &mut values,
            1,
        );
        if left == 0 {
            self.note(&values, grouped);
        }
    }

    // The two questions about the first group of the order that is not settled, each unless it is answered.
    fn ask_group(
        &mut self,
        order: &[u16; 1024],
        grouped: &Grouped,
        settled: &Settled,
        unmet: &mut Unmet,
    )
        requires ordered { OrderOf grouped.now order.now }
        requires state { StateOf grouped.now unmet.old }
        requires at_lt_groups { (settled.now.begun.count < grouped.now.groups)
            × (0 < get_or grouped.now.sizes (get_or order.now settled.now.begun.count 0) 0) }
        ensures unmet_unchanged { unmet.new ≡ unmet.old }
        ensures stays { Stays self.old self.new }
        ensures shown_only { (b : Block) → OverGroups b grouped.now (take settled.now.begun.count order.now) settled.now.values unmet.old
            → ShownOnly b self.old
            → ShownOnly b self.new × Told b self.new (get_or order.now settled.now.begun.count 0) }
    {
        let g = wide(order[settled.begun.count]);
        let size = grouped.sizes[g];
        if self.mined[g] != 1 {
            self.ask(order, grouped, settled, unmet, 1, size);
        }
        if self.unfilled[g] != 1 {
            self.ask(order, grouped, settled, unmet, 0, size - 1);
        }
    }

    // The questions about every group that is not settled. The block's equations begin at `first`.
    fn ask_groups(
        &mut self,
        slots: &[u16; 8192],
        first: usize,
        grouped: &Grouped,
        settled: &Settled,
        unmet: &mut Unmet,
    )
        requires by_index { (g : ℕ) → g < grouped.now.groups → Reach slots.now first (slot_cells grouped.now.columns g) }
        requires group_of_value { all (λ g. ltb g grouped.now.groups) grouped.now.group_of ≡ true }
        requires beginning { Beginning grouped.now.groups settled.now.begun }
        requires over_groups { (b : Block) × OverGroups b grouped.now (in_order settled.now.begun) settled.now.values unmet.old × ShownOnly b self.old }
        ensures { (b : Block) → OverGroups b grouped.now (in_order settled.now.begun) settled.now.values unmet.old
            → ShownOnly b self.old → SettledTold b (in_order settled.now.begun) self.old
            → ShownOnly b self.new × ((g : ℕ) → g < grouped.now.groups → Told b self.new g) }
    {
        for g in 0..grouped.groups {
            if !settled.begun.contains(g) {
                if self.mined[g] + self.unfilled[g] < 2 {
                    let order = settled.begun.outward(slots, first, grouped, g);
                    self.ask_group(&order, grouped, settled, unmet);
                }
            }
        }
    }
}

// What the solutions of a block show of each group; nothing where a remainder is negative.
pub fn shown_by(set: &BlockSet, bounds: Bounds, grouped: &Grouped) -> Shown
    requires arrays { Stands set.now bounds }
    requires combinable { Combinable (block_between set.now bounds) }
    requires grouped_value { grouped.now ≡ groupedOf (block_between set.now bounds) }
    ensures { result ≡ shown (block_between set.now bounds) }
{
    let mut marks = Shown {
        mined: [0; 1024],
        unfilled: [0; 1024],
    };
    if grouped.negative {
        return marks;
    }
    let settled = Settled::settle(grouped);
    let order = settled.begun.in_turn(grouped.groups);
    let mut unmet = settled.unmet;
    marks.ask_any(&order, grouped, &settled, &mut unmet);
    marks.ask_groups(
        &set.slots,
        bounds.first_equation,
        grouped,
        &settled,
        &mut unmet,
    );
    marks
}
