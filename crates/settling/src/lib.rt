// Groups that are settled without a search: where the equations of a group leave it one value, it gets that value before anything is asked. Its equations
// then need less, which may leave another group one value, and so on until a sweep over the groups settles none. The search goes over the other groups alone.
#![tactic(auto)]

ghost use Rattle.std.specs.Prelude.{◌≡◌, ◌⊎◌, true, false, List, ℕ, ◌≤◌, ◌<◌, ltb, length, get_or, take};
ghost use Rattle.lists.specs.Lists.{all, has};
ghost use Rattle.orders.specs.WholeOrders.{in_order, Beginning};
ghost use Rattle.search.specs.Searching.{State};
ghost use Rattle.settling.specs.Settling.{Leaves, Column, Columns};

use blocks::slots_at;
use grid::window::wide;
use groups::Grouped;
use orders::Order;
use search::Unmet;

// The least and the most mines that the equations of a group leave it; none where the least is the greater.
#[derive(Clone, Copy)]
pub struct Span {
    pub least: u8,
    pub most: u8,
}

// What the equations at these places leave a group of so many cells: no more than each needs, and so many that the cells of its other groups do for the rest.
fn span_left(places: &[u16], size: u8, unmet: &Unmet) -> Span
    requires below { all (λ e. ltb e 1024) places.now ≡ true }
    requires size_bound { (size ≤ 8) × ((e : ℕ) → get_or unmet.now.needs e 0 ≤ 8) × ((e : ℕ) → get_or unmet.now.rooms e 0 ≤ 8) }
    ensures { Leaves size places.now unmet.now.needs unmet.now.rooms result.least result.most }
{
    let mut least = 0;
    let mut most = size;
    for &place in places {
        let need = unmet.needs[wide(place)];
        let room = unmet.rooms[wide(place)];
        most = most.min(need);
        least = least.max((need + size).saturating_sub(room));
    }
    Span { least, most }
}

// The groups that are settled, with their values, and what the equations still need and how many cells their other groups have.
#[derive(Drop)]
pub struct Settled {
    pub begun: Order,
    pub values: [u8; 1024],
    pub unmet: Unmet,
    pub ghost state: { State 1024 unmet.needs unmet.rooms },
}

impl Settled {
    ghost use Rattle.settling.specs.SettledGroups.{SettledFrom};

    // Settles a group that is not settled yet, if it is left one value.
    fn settle_group(&mut self, group: usize, grouped: &Grouped)
        requires group_bound { (group < 1024) × Column grouped.now.sizes grouped.now.columns group }
        requires new { has (in_order self.old.begun) group ≡ false }
        ensures by_index { (g : ℕ) → has (in_order self.new.begun) g ≡ true → (has (in_order self.old.begun) g ≡ true) ⊎ (g ≡ group) }
        ensures by_index_2 { (needs rooms : List ℕ) → SettledFrom grouped.now needs rooms self.old → SettledFrom grouped.now needs rooms self.new }
    {
        let size = grouped.sizes[group];
        let column = slots_at(&grouped.columns, group);
        let span = span_left(column.as_slice(), size, &self.unmet);
        if span.least != span.most {
            return;
        }
        self.values[group] = span.most;
        self.unmet.set_group(column, size, span.most);
        self.begun.add_group(group as u16);
    }

    // Settles each group that is left one value, from the first to the last.
    fn sweep(&mut self, grouped: &Grouped)
        requires columns { Columns grouped.now }
        requires beginning { Beginning grouped.now.groups self.old.begun }
        ensures beginning_2 { Beginning grouped.now.groups self.new.begun }
        ensures by_index { (needs rooms : List ℕ) → SettledFrom grouped.now needs rooms self.old → SettledFrom grouped.now needs rooms self.new }
    {
        for g in 0..grouped.groups {
            if !self.begun.contains(g) {
                self.settle_group(g, grouped);
            }
        }
    }

    // Settles groups until a sweep settles none.
    pub fn settle(grouped: &Grouped) -> Settled
        requires columns { Columns grouped.now }
        requires state { State 1024 grouped.now.needs grouped.now.rooms }
        ensures beginning { Beginning grouped.now.groups result.begun }
        ensures settles { SettledFrom grouped.now grouped.now.needs grouped.now.rooms result }
    {
        let mut settled = Settled {
            begun: Order::empty(),
            values: [0; 1024],
            unmet: Unmet::at_first(grouped),
        };
        loop {
            let before = settled.begun.count;
            settled.sweep(grouped);
            if settled.begun.count <= before {
                return settled;
            }
        }
    }
}
