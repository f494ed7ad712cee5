// The states that a walk has met, in a table of 8,192 places: a state goes to the place that its key, its place in the order and its count give, where it
// replaces what was there, which is then forgotten. An entry has the tag of its walk, place and count, its key, and 1 where an allowed count was found, else 0.
ghost use Rattle.std.specs.Prelude.{◌≡◌, cond, ◌&&◌, ℕ, ◌≤◌, ◌<◌, eqb, get_or, set, Some, None, IfSome};
ghost use Rattle.lists.specs.Lists.{bit};
ghost use Rattle.counting.specs.States.{key_of};

use grid::window::wide_byte;
use search::Unmet;

// A key is not made longer past this, since with one digit more it might not fit.
const LONGEST_KEY: usize = 1000000000000000000;

// What each equation needs that is begun and not finished, as the digits of a number; nothing where there are too many, and then the state is not looked for.
pub fn key_of(equations: usize, unmet: &Unmet, start_rooms: &[u8; 1024]) -> Option<usize>
    requires { (equations ≤ 1024) × ((e : ℕ) → get_or unmet.now.needs e 0 ≤ 8) }
    ensures { IfSome result (λ key. key ≡ key_of equations unmet.now.needs unmet.now.rooms start_rooms.now) }
{
    let mut digits = 0;
    for e in 0..equations {
        let room = unmet.rooms[e];
        if 0 < room && room < start_rooms[e] {
            if LONGEST_KEY < digits {
                return None;
            }
            digits = digits * 9 + wide_byte(unmet.needs[e]);
        }
    }
    Some(digits)
}

// A place of the table for a state.
pub fn place_of(key: usize, at: usize, count: usize) -> usize
    requires { (at ≤ 1024) × (count ≤ 1024) }
    ensures { result < 8192 }
{
    (key % 8191 + at * 37 + count * 101) % 8192
}

#[derive(Drop)]
pub struct Met {
    pub tags: [u32; 8192],
    pub keys: [usize; 8192],
    pub results: [u8; 8192],
}

impl Met {
    // Was an allowed count found from a state? Nothing where the table doesn't have the state at this place.
    pub fn found_from(&self, place: usize, tag: u32, key: usize) -> Option<bool>
        requires { place < 8192 }
        ensures { result ≡ cond (eqb (get_or self.now.tags place 0) tag && eqb (get_or self.now.keys place 0) key) (Some (eqb (get_or self.now.results place 0) 1)) None }
    {
        if self.tags[place] == tag && self.keys[place] == key {
            return Some(self.results[place] == 1);
        }
        None
    }

    // Keeps a state at a place of the table, with what was found from it.
    pub fn keep_state(&mut self, place: usize, tag: u32, key: usize, found: bool)
        requires { place < 8192 }
        ensures tags_after { self.new.tags ≡ set self.old.tags place tag }
        ensures keys_after { self.new.keys ≡ set self.old.keys place key }
        ensures results_after { self.new.results ≡ set self.old.results place (bit found) }
    {
        self.tags[place] = tag;
        self.keys[place] = key;
        self.results[place] = u8::from(found);
    }
}
