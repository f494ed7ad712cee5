// The search for solutions: the groups of an order are set one after another, each to every value from 0 to its size that its equations can take; the functions
// call each other, and the number of unset groups falls. What the equations still need is lowered on the way down and raised again on the way up.
#![tactic(auto)]

ghost use Rattle.std.specs.Prelude.{◌≡◌, true, ℕ, suc, ◌-◌, ◌≤◌, ◌<◌, leb, eqb, length, get_or};
ghost use mathlib.Core.List.{map, Memᴰ};
ghost use Rattle.lists.specs.Lists.{all, nodup};
ghost use Rattle.blocks.specs.Places.{cells_in, OnBoard};
ghost use Rattle.search.specs.Trees.{lowered, possible as isPossible};
ghost use Rattle.search.specs.Searching.{raised, Kept, OrderOf, StateOf, unset_of, tree_of, tree_of_values};

use blocks::slots_at;
use grid::window::{UpToEight, wide};
use groups::Grouped;

// For each equation what it still needs, and how many cells its unset groups have.
#[derive(Clone, Copy)]
pub struct Unmet {
    pub needs: [u8; 1024],
    pub rooms: [u8; 1024],
}

impl Unmet {
    // What is unmet before a group is set.
    pub fn at_first(grouped: &Grouped) -> Self
        ensures { (result.needs ≡ grouped.now.needs) × (result.rooms ≡ grouped.now.rooms) }
    {
        Unmet {
            needs: grouped.needs,
            rooms: grouped.rooms,
        }
    }

    // Can the equations of a list take v mines in a group of so many cells?
    pub fn possible(&self, list: UpToEight, size: u8, v: u8) -> bool
        requires on_board { OnBoard list }
        requires size_bound { (size ≤ 8) × (v ≤ 8) × ((e : ℕ) → get_or self.now.needs e 0 ≤ 8) × ((e : ℕ) → get_or self.now.rooms e 0 ≤ 8) }
        ensures { result ≡ isPossible size (cells_in list) self.now.needs self.now.rooms v }
    {
        for &place in list.as_slice() {
            let e = wide(place);
            if self.needs[e] < v {
                return false;
            }
            if v + self.rooms[e] < self.needs[e] + size {
                return false;
            }
        }
        true
    }

    // A group of so many cells, in the equations of a list, gets v mines: each needs so many less, and has so many unset cells less.
    pub fn set_group(&mut self, list: UpToEight, size: u8, v: u8)
        requires on_board { OnBoard list }
        requires once { nodup (cells_in list) ≡ true }
        requires enough_needs { all (λ e. leb v (get_or self.old.needs e 0)) (cells_in list) ≡ true }
        requires enough_rooms { all (λ e. leb size (get_or self.old.rooms e 0)) (cells_in list) ≡ true }
        ensures needs_after { self.new.needs ≡ lowered v (cells_in list) self.old.needs }
        ensures rooms_after { self.new.rooms ≡ lowered size (cells_in list) self.old.rooms }
    {
        for &place in list.as_slice() {
            let e = wide(place);
            self.needs[e] -= v;
            self.rooms[e] -= size;
        }
    }

    // The same group is unset again.
    pub fn unset_group(&mut self, list: UpToEight, size: u8, v: u8)
        requires on_board { OnBoard list }
        requires size_bound { (size ≤ 8) × (v ≤ 8) × ((e : ℕ) → get_or self.old.needs e 0 ≤ 8) × ((e : ℕ) → get_or self.old.rooms e 0 ≤ 8) }
        ensures needs_after { self.new.needs ≡ raised v (cells_in list) self.old.needs }
        ensures rooms_after { self.new.rooms ≡ raised size (cells_in list) self.old.rooms }
    {
        for &place in list.as_slice() {
            let e = wide(place);
            self.needs[e] += v;
            self.rooms[e] += size;
        }
    }

    // Does none of so many equations need a mine?
    pub fn all_met(&self, equations: usize) -> bool
        requires { (equations ≤ 1024) × ((e : ℕ) → equations ≤ e → get_or self.now.needs e 0 ≡ 0) }
        ensures { result ≡ all (λ n. eqb n 0) self.now.needs }
    {
        self.needs[..equations].iter().all(|&need| need == 0)
    }
}

// How many of `left` solutions are still wanted after those of the groups from place `at` of the order on. Stops where none is; `values` then has the last found.
#[cycle(spend_spend_values)]
pub fn spend(
    grouped: &Grouped,
    order: &[u16; 1024],
    at: usize,
    unmet: &mut Unmet,
    values: &mut [u8; 1024],
    left: usize,
) -> usize
    requires ordered { OrderOf grouped.now order.now }
    requires state { StateOf grouped.now unmet.old }
    requires at_le_groups { (at ≤ grouped.now.groups) × (length values.old ≡ 1024) × (0 < left) }
    ensures value { result ≡ left - length (tree_of grouped.now order.now at unmet.old) }
    ensures unmet_unchanged { unmet.new ≡ unmet.old }
    ensures kept { Kept (unset_of grouped.now order.now at) values.old values.new }
    ensures fact { result ≡ 0 → Memᴰ (map (λ (g : ℕ). get_or values.new g 0) (unset_of grouped.now order.now at)) (tree_of grouped.now order.now at unmet.old) }
{
    if at == grouped.groups {
        if unmet.all_met(grouped.equations) {
            return left - 1;
        }
        return left;
    }
    let size = grouped.sizes[wide(order[at])];
    spend_values(grouped, order, at, 0, size, unmet, values, left)
}

// The same for the values from `from` to `to` of the group at place `at`.
#[cycle(spend_spend_values)]
pub fn spend_values(
    grouped: &Grouped,
    order: &[u16; 1024],
    at: usize,
    from: u8,
    to: u8,
    unmet: &mut Unmet,
    values: &mut [u8; 1024],
    left: usize,
) -> usize
    requires ordered { OrderOf grouped.now order.now }
    requires state { StateOf grouped.now unmet.old }
    requires at_lt_groups { (at < grouped.now.groups) × (to ≤ 8) × (length values.old ≡ 1024) × (0 < left) }
    ensures value { result ≡ left - length (tree_of_values grouped.now order.now at from to unmet.old) }
    ensures unmet_unchanged { unmet.new ≡ unmet.old }
    ensures kept { Kept (unset_of grouped.now order.now at) values.old values.new }
    ensures fact { result ≡ 0 → Memᴰ (map (λ (g : ℕ). get_or values.new g 0) (unset_of grouped.now order.now at)) (tree_of_values grouped.now order.now at from to unmet.old) }
{
    let g = wide(order[at]);
    let size = grouped.sizes[g];
    let list = slots_at(&grouped.columns, g);
    let mut rest = left;
    for v in from..=to {
        if unmet.possible(list, size, v) {
            values[g] = v;
            unmet.set_group(list, size, v);
            rest = spend(grouped, order, at + 1, unmet, values, rest);
            unmet.unset_group(list, size, v);
            if rest == 0 {
                return 0;
            }
        }
    }
    rest
}
