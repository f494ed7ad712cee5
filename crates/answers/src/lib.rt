// What each call answers to a line of numbers, as a line of text in a lent buffer: the text of the oracle, so that a comparison is a `diff`. The verdict is asked by
// two names, of a plain board and of one that shows its mine total.
#![tactic(auto)]

ghost use Rattle.std.specs.Prelude.{◌≡◌, find};
ghost use Rattle.text.specs.Text.{Written, Wrote};
ghost use Rattle.answers.specs.Calls.{call_name, names, call_named, call_line};

use board_lines::verdicts::verdict_line;
use board_lines::{bbbv_line, pattern_line};
use deductions::Rule;
use frontier_lines::frontier_line;
use records::BoardMark;
use rule_lines::deduction_line;
use table_lines::table_line;
use text::Text;

// The calls that a line may be put to.
#[derive(Clone, Copy)]
pub enum Call {
    Frontier,
    Direct,
    Minus,
    Pattern,
    Bbbv,
    Enumerate,
    Verdict,
    Total,
    Table,
}

// All of them, in the order above.
const CALLS: [Call; 9] = [
    Call::Frontier,
    Call::Direct,
    Call::Minus,
    Call::Pattern,
    Call::Bbbv,
    Call::Enumerate,
    Call::Verdict,
    Call::Total,
    Call::Table,
];

impl Call {
    // The name of a call, by which it is asked for.
    pub fn name(self) -> &'static str
        ensures { result.now ≡ call_name self }
    {
        match self {
            Call::Frontier => "frontier",
            Call::Direct => "direct",
            Call::Minus => "minus",
            Call::Pattern => "pattern",
            Call::Bbbv => "bbbv",
            Call::Enumerate => "enumerate",
            Call::Verdict => "verdict",
            Call::Total => "total",
            Call::Table => "table",
        }
    }

    // The call that a word names.
    pub fn named(word: &[u8]) -> Option<Call>
        ensures { result ≡ call_named word.now }
    {
        first_named(&CALLS, word)
    }
}

// The first of some calls that a word names.
fn first_named(calls: &[Call], word: &[u8]) -> Option<Call>
    ensures { result ≡ find (names word.now) calls.now }
{
    calls
        .iter()
        .copied()
        .find(|call| call.name().as_bytes() == word)
}

// What a call answers to a line, put behind what is written.
fn put_call(out: &mut Text<'_>, call: Call, line: &[u8])
    ensures { Wrote out.old out.new (call_line call line.now) }
{
    match call {
        Call::Frontier => frontier_line(line, out),
        Call::Direct => deduction_line(Rule::Direct, line, out),
        Call::Minus => deduction_line(Rule::Minus, line, out),
        Call::Pattern => pattern_line(line, out),
        Call::Bbbv => bbbv_line(line, out),
        Call::Enumerate => deduction_line(Rule::Enumerate, line, out),
        Call::Verdict => verdict_line(BoardMark::Plain, line, out),
        Call::Total => verdict_line(BoardMark::Total, line, out),
        Call::Table => table_line(line, out),
    }
}

// What a call answers to a line.
pub fn call_line(call: Call, line: &[u8], out: &mut [u8]) -> usize
    ensures { Written out.old 0 (call_line call line.now) out.new result }
{
    let mut text = Text::new(out);
    put_call(&mut text, call, line);
    text.len()
}
