// The rows of the solution table: the search once more, which sets the groups of an order one after another and goes on to the last. Each solution is written into
// its own part of the lent table, a byte for each group, and the next one behind it.
#![tactic(auto)]

ghost use Rattle.std.specs.Prelude.{◌≡◌, List, map, ℕ, ◌+◌, ◌*◌, ◌≤◌, ◌<◌, length, take};
ghost use Rattle.std.proofs.lemmas.List.Edits.{sets};
ghost use Rattle.lists.specs.Lists.{joined};
ghost use Rattle.search.specs.Searching.{placed, Kept, OrderOf, StateOf, unset_of, tree_of};

use blocks::slots_at;
use grid::window::wide;
use groups::Grouped;
use search::Unmet;

// Writes the values of the first groups at the front of a part of the table.
fn write_row(table: &mut [u8], values: &[u8; 1024], groups: usize)
    requires { (groups ≤ 1024) × (length values.now ≡ 1024) × (groups ≤ length table.old) }
    ensures { table.new ≡ sets table.old 0 (take groups values.now) }
{
    let row = &values[..groups];
    for (g, &value) in row.iter().enumerate() {
        table[g] = value;
    }
}

// Writes the solutions of the groups from place `at` of the order on, from a row on; returns the row after the last.
pub fn put_rows(
    grouped: &Grouped,
    order: &[u16; 1024],
    at: usize,
    unmet: &mut Unmet,
    values: &mut [u8; 1024],
    table: &mut [u8],
    row: usize,
) -> usize
    requires ordered { OrderOf grouped.now order.now }
    requires state { StateOf grouped.now unmet.old }
    requires at_le_groups { (at ≤ grouped.now.groups) × (0 < grouped.now.groups) × (length values.old ≡ 1024) }
    requires groups_in_bounds { (row + length (tree_of grouped.now order.now at unmet.old)) * grouped.now.groups ≤ length table.old }
    ensures value { result ≡ row + length (tree_of grouped.now order.now at unmet.old) }
    ensures table_after { table.new ≡ sets table.old (row * grouped.now.groups) (joined (map (λ (w : List ℕ). take grouped.now.groups (placed values.old (unset_of grouped.now order.now at) w))
        (tree_of grouped.now order.now at unmet.old))) }
    ensures unmet_unchanged { unmet.new ≡ unmet.old }
    ensures kept { Kept (unset_of grouped.now order.now at) values.old values.new }
{
    if at == grouped.groups {
        if !unmet.all_met(grouped.equations) {
            return row;
        }
        let begin = row * grouped.groups;
        write_row(&mut table[begin..], values, grouped.groups);
        return row + 1;
    }
    let g = wide(order[at]);
    let size = grouped.sizes[g];
    let list = slots_at(&grouped.columns, g);
    let mut next = row;
    for v in 0..=size {
        if unmet.possible(list, size, v) {
            values[g] = v;
            unmet.set_group(list, size, v);
            next = put_rows(grouped, order, at + 1, unmet, values, table, next);
            unmet.unset_group(list, size, v);
        }
    }
    next
}
