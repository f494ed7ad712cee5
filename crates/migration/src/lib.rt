// Stored records carried over, on bytes: a start of 255,255 meant the first 0 in reading order, and its two bytes become the row and the column of that 0. The records of a
// part of the input are carried over where they stand, wherever the input is cut; from where no whole record with the mark 4D 42 begins on, the bytes stay as they are. A program
// only reads, calls `migrate_part`, writes, and keeps the bytes that did not go out. specs/Migrated.antt says what becomes of the whole input, specs/Parts.antt of a part of it.
#![tactic(auto)]

ghost use Rattle.std.specs.Prelude.{◌≡◌, true, false, not, ◌&&◌, ◌+◌, ◌*◌, ◌≤◌, ◌<◌, length, get_or, take, drop};
ghost use Rattle.migration.specs.Migrated.{is_stored, is_open, started_at, migrated_record};
ghost use Rattle.migration.specs.Parts.{no_counts, counts_after, counts_of, Migrates, Progress};
ghost use Rattle.migration.specs.Steps.{zero_place, is_mark, may_begin, Carried};

use records::record_length;

// How many records passed through, how many of them changed, and how many bytes they have.
#[derive(Clone, Copy)]
pub struct Counts {
    pub records: usize,
    pub changed: usize,
    pub bytes: usize,
}

// What becomes of a part of the input: how many of its bytes go out, whether all that follows is copied, and the records counted.
#[derive(Clone, Copy)]
pub struct Part {
    pub len: usize,
    pub copying: bool,
    pub counts: Counts,
}

// The place of the first 0 in reading order.
fn first_zero(cells: &[u8]) -> Option<usize>
    ensures { result ≡ zero_place cells.now }
{
    cells.iter().position(|&cell| cell == 0)
}

// Are two bytes the mark 4D 42?
fn is_mark(first: u8, second: u8) -> bool
    ensures { result ≡ is_mark first second }
{
    first == b'M' && second == b'B'
}

// Does a whole record with the mark stand at the front?
fn is_stored(input: &[u8]) -> bool
    ensures { result ≡ is_stored input.now }
{
    if input.len() < 6 {
        return false;
    }
    is_mark(input[0], input[1]) && record_length(input) <= input.len()
}

// Is it the retired start?
fn is_open(row: u8, column: u8) -> bool
    ensures { result ≡ is_open row column }
{
    row == 255 && column == 255
}

// Writes the row and the column of a cell in the place of the start.
fn start_at(stored: &mut [u8], cell: usize)
    requires { (6 ≤ length stored.old) × (cell < get_or stored.old 2 0 * get_or stored.old 3 0) }
    ensures { stored.new ≡ started_at stored.old cell }
{
    let columns = usize::from(stored[3]);
    let row = (cell / columns) as u8;
    let column = (cell % columns) as u8;
    stored[4] = row;
    stored[5] = column;
}

// Writes the start that was meant into the whole record at the front. Other bytes may stand behind it, and stay.
fn migrate_record(stored: &mut [u8]) -> Counts
    requires { is_stored stored.old ≡ true }
    ensures value { result ≡ counts_of stored.old }
    ensures stored_after { stored.new ≡ migrated_record stored.old }
{
    let end = record_length(stored);
    if is_open(stored[4], stored[5]) {
        if let Some(cell) = first_zero(&stored[6..end]) {
            start_at(stored, cell);
            return Counts {
                records: 1,
                changed: 1,
                bytes: end,
            };
        }
    }
    Counts {
        records: 1,
        changed: 0,
        bytes: end,
    }
}

// No record yet.
pub fn no_counts() -> Counts
    ensures { result ≡ no_counts }
{
    Counts {
        records: 0,
        changed: 0,
        bytes: 0,
    }
}

// Records, and those behind them, each count as far as a number goes.
pub fn counts_after(counts: Counts, more: Counts) -> Counts
    ensures { result ≡ counts_after counts more }
{
    Counts {
        records: counts.records.saturating_add(more.records),
        changed: counts.changed.saturating_add(more.changed),
        bytes: counts.bytes.saturating_add(more.bytes),
    }
}

// Does a whole record begin at a place?
fn stored_at(input: &[u8], at: usize) -> bool
    requires { at ≤ length input.now }
    ensures { result ≡ is_stored (drop at input.now) }
{
    is_stored(&input[at..])
}

// Carries over the record that begins at a place.
fn migrate_at(input: &mut [u8], at: usize) -> Counts
    requires { (at ≤ length input.old) × (is_stored (drop at input.old) ≡ true) }
    ensures value { result ≡ counts_of (drop at input.old) }
    ensures input_after { drop at input.new ≡ migrated_record (drop at input.old) }
    ensures input_unchanged { take at input.new ≡ take at input.old }
{
    migrate_record(&mut input[at..])
}

// Carries over the whole records at the front, one after another.
fn migrate_records(input: &mut [u8]) -> Counts
    ensures carried { Carried input.old result input.new }
    ensures input_value { is_stored (drop result.bytes input.old) ≡ false }
{
    let mut counts = no_counts();
    while stored_at(input, counts.bytes) {
        let one = migrate_at(input, counts.bytes);
        counts = counts_after(counts, one);
    }
    counts
}

// May more bytes make a whole record of it?
fn may_begin(input: &[u8]) -> bool
    ensures { result ≡ may_begin input.now }
{
    match input {
        [] => true,
        [first] => *first == b'M',
        [first, second, ..] => is_mark(*first, *second),
    }
}

// Does what is left from a place on wait for more bytes?
fn waits_at(input: &[u8], at: usize, ended: bool) -> bool
    requires { at ≤ length input.now }
    ensures { result ≡ (not ended && may_begin (drop at input.now)) }
{
    !ended && may_begin(&input[at..])
}

// Carries over a part of the input. `copying` says that no whole record stood at some place before, so that all is copied, and `ended` that nothing follows the part.
pub fn migrate_part(input: &mut [u8], copying: bool, ended: bool) -> Part
    ensures migrates { Migrates copying ended input.old result input.new }
    ensures progress { Progress input.old result }
    ensures input_len_unchanged { length input.new ≡ length input.old }
{
    if copying {
        return Part {
            len: input.len(),
            copying: true,
            counts: no_counts(),
        };
    }
    let counts = migrate_records(input);
    if waits_at(input, counts.bytes, ended) {
        return Part {
            len: counts.bytes,
            copying: false,
            counts,
        };
    }
    Part {
        len: input.len(),
        copying: counts.bytes < input.len(),
        counts,
    }
}
