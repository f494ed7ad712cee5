// The run of the program, on bytes: the records of a part of the input are answered into a lent buffer, line after line, wherever the input is cut. The header, the numbers,
// where the next record begins and when the run ends are decided here; a program only reads, calls `answer_part`, writes, and keeps the bytes that were not read.
// specs/Run.antt says what the whole input prints, specs/Parts.antt what a part of it does.
#![tactic(auto)]

ghost use Rattle.std.specs.Prelude.{◌≡◌, ◌+◌, ◌-◌, ◌≤◌, ◌<◌, length, take, drop};
ghost use Rattle.record_lines.specs.Answers.{line_text};
ghost use Rattle.run.specs.Run.{header, tally_of};
ghost use Rattle.run.specs.Parts.{goes_on, Answers, Progress, new_run, capped_tally, run_after};
ghost use Rattle.run.specs.Steps.{next_after_end, next_after_damage, next_of, nothing_yet, header_part, line_part, part_sum, AtFront, Few, Step, another};

use record_lines::{board_verdict, put_line};
use records::{read_record, record_length};
use refusals::Refusal;
use text::Text;
use verdict::Verdict;

// How many verdicts say yes, say no, and refuse.
#[derive(Clone, Copy)]
pub struct Tally {
    pub yes: usize,
    pub no: usize,
    pub refused: usize,
}

// No verdict is counted.
const NO_TALLY: Tally = Tally {
    yes: 0,
    no: 0,
    refused: 0,
};

impl Tally {
    // With the verdicts of another tally, each count as far as a number goes.
    fn plus(self, more: Tally) -> Tally
        ensures { result ≡ capped_tally self more }
    {
        Tally {
            yes: self.yes.saturating_add(more.yes),
            no: self.no.saturating_add(more.no),
            refused: self.refused.saturating_add(more.refused),
        }
    }
}

// Whether the run goes on after a part of the input, has come to the input's end, or stops at a damaged record.
#[derive(Clone, Copy)]
pub enum RunState {
    GoesOn,
    Complete,
    Stopped(Refusal),
}

// What a part of the input is answered by: how many of its bytes are read and how many are written, the number of the next line, the verdicts counted, and how
// the run stands.
#[derive(Clone, Copy)]
pub struct Part {
    pub read: usize,
    pub len: usize,
    pub next: usize,
    pub tally: Tally,
    pub state: RunState,
}

// How far a run has come: the number of the next line, how many bytes of the input are read, the verdicts counted, and how the run stands.
#[derive(Clone, Copy)]
pub struct Run {
    pub next: usize,
    pub read: usize,
    pub tally: Tally,
    pub state: RunState,
}

// What stands at the front of a part of the input.
#[derive(Clone, Copy)]
enum Next {
    // The beginning of a record: more bytes may follow.
    Waits,
    // The input's end.
    Ended,
    // A damaged record, after whose line the run ends.
    Damage(Refusal),
    // A whole record: its verdict, and how many bytes it has.
    Board(Result<Verdict, Refusal>, usize),
}

// An empty part: the input's end, or a record may begin in the next part.
fn next_after_end(ended: bool) -> Next
    ensures { result ≡ next_after_end ended }
{
    if ended { Next::Ended } else { Next::Waits }
}

// A damaged record; one that is cut short may go on in the next part.
fn next_after_damage(refusal: Refusal, ended: bool) -> Next
    ensures { result ≡ next_after_damage refusal ended }
{
    if ended {
        return Next::Damage(refusal);
    }
    if refusal == Refusal::Short {
        return Next::Waits;
    }
    Next::Damage(refusal)
}

// What stands at the front.
fn next_verdict(input: &[u8], ended: bool) -> Next
    ensures { result ≡ next_of ended input.now }
{
    match read_record(input) {
        Ok(None) => next_after_end(ended),
        Err(refusal) => next_after_damage(refusal, ended),
        Ok(Some(head)) => {
            let end = record_length(input);
            let verdict = board_verdict(head, &input[6..end]);
            Next::Board(verdict, end)
        }
    }
}

// Nothing has been answered yet, and line `number` is the next.
fn nothing_yet(number: usize, state: RunState) -> Part
    ensures { result ≡ nothing_yet number state }
{
    Part {
        read: 0,
        len: 0,
        next: number,
        tally: NO_TALLY,
        state,
    }
}

// A verdict, counted.
fn tally_of(verdict: Result<Verdict, Refusal>) -> Tally
    ensures { result ≡ tally_of verdict }
{
    match verdict {
        Err(_) => Tally {
            refused: 1,
            ..NO_TALLY
        },
        Ok(Verdict { yes: true, .. }) => Tally { yes: 1, ..NO_TALLY },
        Ok(Verdict { yes: false, .. }) => Tally { no: 1, ..NO_TALLY },
    }
}

// The header, at the buffer's front.
fn put_header(out: &mut [u8]) -> Part
    requires { 88 ≤ length out.old }
    ensures at_front { AtFront header header_part result out.new }
    ensures out_len_unchanged { length out.new ≡ length out.old }
{
    let mut text = Text::new(out);
    text.bytes(b"board verdict opened grade rounds\n");
    Part {
        read: 0,
        len: text.len(),
        next: 1,
        tally: NO_TALLY,
        state: RunState::GoesOn,
    }
}

// The line of a verdict, at the buffer's front.
fn put_answer(
    out: &mut [u8],
    number: usize,
    verdict: Result<Verdict, Refusal>,
    size: usize,
    state: RunState,
) -> Part
    requires { (88 ≤ length out.old) × (number < 18446744073709551615) }
    ensures { AtFront (line_text number verdict) (line_part number verdict size state) result out.new }
{
    let mut text = Text::new(out);
    put_line(&mut text, number, verdict);
    Part {
        read: size,
        len: text.len(),
        next: number + 1,
        tally: tally_of(verdict),
        state,
    }
}

// Line `number` of the text: the header, or the line of the record at the front. Nothing is done where there is no room for a line, or more bytes must come first.
fn answer_one(input: &[u8], ended: bool, number: usize, out: &mut [u8]) -> Part
    ensures answers { Answers input.now ended number result out.new }
    ensures step { Step input.now ended number result out.old }
{
    if out.len() < 88 {
        return nothing_yet(number, RunState::GoesOn);
    }
    if number == 0xffff_ffff_ffff_ffff {
        return nothing_yet(number, RunState::GoesOn);
    }
    if number == 0 {
        return put_header(out);
    }
    match next_verdict(input, ended) {
        Next::Waits => nothing_yet(number, RunState::GoesOn),
        Next::Ended => nothing_yet(number, RunState::Complete),
        Next::Damage(refusal) => {
            let verdict = Err(refusal);
            put_answer(out, number, verdict, 0, RunState::Stopped(refusal))
        }
        Next::Board(verdict, size) => put_answer(out, number, verdict, size, RunState::GoesOn),
    }
}

// The line of what is left of the input, behind what is written.
fn answer_from(
    input: &[u8],
    at: usize,
    ended: bool,
    number: usize,
    out: &mut [u8],
    len: usize,
) -> Part
    requires { (at ≤ length input.now) × (len ≤ length out.old) }
    ensures answers { Answers (drop at input.now) ended number result (drop len out.new) }
    ensures step { Step (drop at input.now) ended number result (drop len out.old) }
    ensures out_unchanged { take len out.new ≡ take len out.old }
{
    answer_one(&input[at..], ended, number, &mut out[len..])
}

// A part and, of what it left, another.
fn part_sum(first: Part, second: Part) -> Part
    requires { (first.read + second.read < 18446744073709551616) × (first.len + second.len < 18446744073709551616) × Few first × Few second }
    ensures { result ≡ part_sum first second }
{
    Part {
        read: first.read + second.read,
        len: first.len + second.len,
        next: second.next,
        tally: first.tally.plus(second.tally),
        state: second.state,
    }
}

// Does another line follow?
fn is_another(part: Part) -> bool
    ensures { result ≡ another part }
{
    match part.state {
        RunState::GoesOn => 0 < part.len,
        RunState::Complete | RunState::Stopped(_) => false,
    }
}

// Answers the records of a part of the input, from line `number` of the text on, as long as the buffer has room. `ended` says that nothing follows the part.
pub fn answer_part(input: &[u8], ended: bool, number: usize, out: &mut [u8]) -> Part
    ensures answers { Answers input.now ended number result out.new }
    ensures progress { Progress input.now ended number out.old result }
{
    let mut part = nothing_yet(number, RunState::GoesOn);
    loop {
        let one = answer_from(input, part.read, ended, part.next, out, part.len);
        part = part_sum(part, one);
        if !is_another(one) {
            return part;
        }
    }
}

// A run that has not begun: the header is its next line.
pub fn new_run() -> Run
    ensures { result ≡ new_run }
{
    Run {
        next: 0,
        read: 0,
        tally: NO_TALLY,
        state: RunState::GoesOn,
    }
}

// The run after a part of its input has been answered.
pub fn run_after(run: Run, part: Part) -> Run
    ensures { result ≡ run_after run part }
{
    Run {
        next: part.next,
        read: run.read.saturating_add(part.read),
        tally: run.tally.plus(part.tally),
        state: part.state,
    }
}

// Does a run go on?
pub fn goes_on(run: Run) -> bool
    ensures { result ≡ goes_on run.state }
{
    matches!(run.state, RunState::GoesOn)
}

// Moves the bytes that were not read, those from `read` up to `end`, to the front of the input, and says how many they are.
pub fn keep_rest(input: &mut [u8], read: usize, end: usize) -> usize
    requires { (read ≤ end) × (end ≤ length input.old) }
    ensures { (result ≡ end - read) × (take result input.new ≡ take result (drop read input.old)) }
{
    let kept = end - read;
    if read == 0 {
        return kept;
    }
    for i in 0..kept {
        input[i] = input[read + i];
    }
    kept
}
