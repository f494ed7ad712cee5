// The walk over a block's groups: they are set one after another, each to every value that its equations can take, and mines are counted on the way. Where no
// group is left and every equation has what it needs, the count is one that a solution has. Of the solutions whose count is allowed the walk marks the count,
// the groups with a mine and the groups with a free cell. A state that the table has is not gone on from again: what would be marked is marked.
ghost use Rattle.std.specs.Prelude.{◌≡◌, true, ◌&&◌, ℕ, ◌+◌, ◌≤◌, ◌<◌, eqb, ltb, get_or};
ghost use Rattle.lists.specs.Lists.{all};
ghost use Rattle.search.specs.Searching.{OrderOf};
ghost use Rattle.counting.specs.Counting.{Marked};

use super::states::{Met, key_of, place_of};
use blocks::slots_at;
use grid::window::{wide, wide_byte};
use groups::Grouped;
use search::Unmet;

// 1 for each count that a solution with an allowed one has, 1 for each group with a mine in such a solution, 1 for each group with a free cell in one; else 0.
#[derive(Drop)]
pub struct Counted {
    pub reached: [u8; 1025],
    pub mined: [u8; 1024],
    pub unfilled: [u8; 1024],
}

impl Counted {
    // A solution with an allowed count gives group g, of so many cells, v mines: what that shows of it.
    fn note_value(&mut self, g: usize, v: u8, size: u8)
        requires { g < 1024 }
        ensures reached_unchanged { self.new.reached ≡ self.old.reached }
        ensures marked { Marked (λ x. eqb g x && ltb 0 v) self.old.mined self.new.mined }
        ensures marked_2 { Marked (λ x. eqb g x && ltb v size) self.old.unfilled self.new.unfilled }
    {
        if 0 < v {
            self.mined[g] = 1;
        }
        if v < size {
            self.unfilled[g] = 1;
        }
    }
}

// No group is left: is this a solution with an allowed count? Then its count is reached.
fn reach(
    unmet: &Unmet,
    equations: usize,
    allowed: &[u8; 1025],
    count: usize,
    reached: &mut [u8; 1025],
) -> bool
    requires equations_bound { (equations ≤ 1024) × ((e : ℕ) → equations ≤ e → get_or unmet.now.needs e 0 ≡ 0) }
    requires count_bound { count ≤ 1024 }
    ensures value { result ≡ (all (λ n. eqb n 0) unmet.now.needs && eqb (get_or allowed.now count 0) 1) }
    ensures marked { Marked (λ x. eqb count x && result) reached.old reached.new }
{
    let found = unmet.all_met(equations) && allowed[count] == 1;
    if found {
        reached[count] = 1;
    }
    found
}

// What a walk goes by: a block over its groups, their order, and which counts are allowed. The tags of the walk begin at `first`.
#[derive(Clone, Copy)]
pub struct Walk<'a> {
    pub grouped: &'a Grouped,
    pub order: &'a [u16; 1024],
    pub allowed: &'a [u8; 1025],
    pub first: usize,
    pub ghost ordered: { OrderOf grouped.now order.now },
    pub ghost tags_fit: { first ≤ 4000000000 },
}

impl<'a> Walk<'a> {
    ghost use Rattle.counting.specs.Walks.{room_at, CourseOf, UnderwayOf, RightOf, StaysRight, WalkedOf};

    // The groups from place `at` of the order on, when `count` mines are set: does some solution have an allowed count?
    #[cycle(walk_values)]
    pub fn walk(
        &self,
        at: usize,
        count: usize,
        unmet: &mut Unmet,
        told: &mut Counted,
        met: &mut Met,
    ) -> bool
        requires at_le_groups { (at ≤ self.now.grouped.now.groups) × (count + room_at self.now at ≤ 1024) }
        requires underway { (c : CourseOf self.now) × UnderwayOf self.now c at unmet.old × RightOf self.now c met.old told.old }
        ensures walked { WalkedOf self.now at count unmet.old result told.old told.new }
        ensures unmet_unchanged { unmet.new ≡ unmet.old }
        ensures right { StaysRight self.now at unmet.old met.old told.old met.new told.new }
    {
        let grouped = self.grouped;
        if at == grouped.groups {
            return reach(
                unmet,
                grouped.equations,
                self.allowed,
                count,
                &mut told.reached,
            );
        }
        let Some(key) = key_of(grouped.equations, unmet, &grouped.rooms) else {
            return self.walk_values(at, count, unmet, told, met);
        };
        let tag = (self.first + at * 1025 + count) as u32;
        let place = place_of(key, at, count);
        if let Some(found) = met.found_from(place, tag, key) {
            return found;
        }
        let found = self.walk_values(at, count, unmet, told, met);
        met.keep_state(place, tag, key, found);
        found
    }

    // The same, through every value of the group at place `at`.
    #[cycle(walk_values)]
    pub fn walk_values(
        &self,
        at: usize,
        count: usize,
        unmet: &mut Unmet,
        told: &mut Counted,
        met: &mut Met,
    ) -> bool
        requires at_lt_groups { (at < self.now.grouped.now.groups) × (count + room_at self.now at ≤ 1024) }
        requires underway { (c : CourseOf self.now) × UnderwayOf self.now c at unmet.old × RightOf self.now c met.old told.old }
        ensures walked { WalkedOf self.now at count unmet.old result told.old told.new }
        ensures unmet_unchanged { unmet.new ≡ unmet.old }
        ensures right { StaysRight self.now at unmet.old met.old told.old met.new told.new }
    {
        let g = wide(self.order[at]);
        let size = self.grouped.sizes[g];
        let list = slots_at(&self.grouped.columns, g);
        let mut found = false;
        for v in 0..=size {
            if unmet.possible(list, size, v) {
                unmet.set_group(list, size, v);
                let count_below = count + wide_byte(v);
                let below = self.walk(at + 1, count_below, unmet, told, met);
                unmet.unset_group(list, size, v);
                if below {
                    told.note_value(g, v, size);
                    found = true;
                }
            }
        }
        found
    }
}
