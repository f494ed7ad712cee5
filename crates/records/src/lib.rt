// The format of board records. A record is a mark of two bytes, then rows, columns, start row, start column, a byte each, and the cells row by row. What a part of the
// input is that begins where a record should, is decided here; by which line it is answered, in `record_lines`.
#![tactic(auto)]

ghost use Rattle.std.specs.Prelude.{◌≡◌, ◌≤◌};
ghost use Rattle.records.specs.Records.{record_length, board_mark, known_mark, record_of};

use refusals::Refusal;

// What the first two bytes of a record mark: a case for each mark that is known, and one for all others.
#[derive(Clone, Copy, PartialEq, Eq)]
pub enum BoardMark {
    // 4D 42: a plain board.
    Plain,
    // 4D 43: a board that shows its mine total.
    Total,
    // No mark that is known.
    Unknown,
}

// The head of a record: its mark, the sides of its board, and its start.
#[derive(Clone, Copy)]
pub struct Head {
    pub mark: BoardMark,
    pub rows: usize,
    pub columns: usize,
    pub row: usize,
    pub column: usize,
}

// How many bytes a record has in all, by its first six; six where there are fewer.
pub fn record_length(head: &[u8]) -> usize
    ensures value { result ≡ record_length head.now }
    ensures upper_bound { result ≤ 65031 }
{
    if head.len() < 6 {
        return 6;
    }
    6 + usize::from(head[2]) * usize::from(head[3])
}

// The mark that two bytes are.
pub fn board_mark(first: u8, second: u8) -> BoardMark
    ensures { result ≡ board_mark first second }
{
    match (first, second) {
        (b'M', b'B') => BoardMark::Plain,
        (b'M', b'C') => BoardMark::Total,
        _ => BoardMark::Unknown,
    }
}

// Is it a known mark?
fn is_known(mark: BoardMark) -> bool
    ensures { result ≡ known_mark mark }
{
    match mark {
        BoardMark::Plain | BoardMark::Total => true,
        BoardMark::Unknown => false,
    }
}

// Reads the record at the front of a part of the input: none where the input has ended. The mark comes first: two bytes that are no known mark are refusal 10, whatever
// follows; an input that ends inside a record is refusal 11.
pub fn read_record(input: &[u8]) -> Result<Option<Head>, Refusal>
    ensures { result ≡ record_of input.now }
{
    if input.is_empty() {
        return Ok(None);
    }
    if input.len() < 2 {
        return Err(Refusal::Short);
    }
    let mark = board_mark(input[0], input[1]);
    if !is_known(mark) {
        return Err(Refusal::Mark);
    }
    if input.len() < record_length(input) {
        return Err(Refusal::Short);
    }
    Ok(Some(Head {
        mark,
        rows: usize::from(input[2]),
        columns: usize::from(input[3]),
        row: usize::from(input[4]),
        column: usize::from(input[5]),
    }))
}
