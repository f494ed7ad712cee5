// The run over a reader and a writer: read, answer, write, keep what was not read. What the bytes come to is decided by `answer_part`, whose contract holds wherever the
// input is cut; here they are only moved. How the run ended is told to a second writer, which is standard error: a read or a write that failed with its cause, a damaged
// record with its place, and a summary where all that could be judged was judged and written.
#![tactic(auto)]

ghost use Rattle.std.specs.Prelude.{◌≡◌, ◌≤◌, length};
ghost use Rattle.inputs.specs.Parts.{TakesAtMost};

use inputs::for_each_part;
use refusals::Refusal;
use run::{Run, RunState, Tally, answer_part, goes_on, new_run, run_after};
use std::io;
use std::io::{Read, Write};

// Answers a part of the input, and writes the lines: how many of its bytes are read, where the run goes on.
fn judge_part<W: Write>(
    writer: &mut W,
    out: &mut [u8],
    run: &mut Run,
    part: &[u8],
    ended: bool,
) -> io::Result<Option<usize>>
    ensures { TakesAtMost part.now result }
{
    let answered = answer_part(part, ended, run.next, out);
    writer.write_all(&out[..answered.len])?;
    *run = run_after(*run, answered);
    Ok(goes_on(*run).then_some(answered.read))
}

// At which byte a damaged record begins, and that the rest was not judged.
fn tell_damage<E: Write>(messages: &mut E, refusal: Refusal, at: usize) {
    let what = match refusal {
        Refusal::Short => "it ends inside the record that begins there, which was not judged",
        _ => "no record begins there; what follows was not judged",
    };
    let _ = writeln!(messages, "judge: stopped at byte {at} of the input: {what}");
}

// `judge: 1500 boards: 980 yes, 500 no, 20 refused`.
fn tell_summary<E: Write>(messages: &mut E, tally: Tally, boards: usize) {
    let Tally { yes, no, refused } = tally;
    let noun = if boards == 1 { "board" } else { "boards" };
    let _ = writeln!(
        messages,
        "judge: {boards} {noun}: {yes} yes, {no} no, {refused} refused"
    );
}

// How a run ended that has come to its end. The number of the line that would be next tells how many boards there were: line 0 is the header.
fn tell_end<E: Write>(messages: &mut E, run: Run) {
    if let RunState::Stopped(refusal) = run.state {
        tell_damage(messages, refusal, run.read);
    }
    tell_summary(messages, run.tally, run.next.saturating_sub(1));
}

// Judges the records that a reader gives, and writes the lines to a writer. It answers nothing, and no contract can say what is read and written. The input has room for
// the longest record and a byte more, so that a read that brings nothing is the input's end.
pub fn judge_records<R: Read, W: Write, E: Write>(
    reader: &mut R,
    writer: &mut W,
    messages: &mut E,
    input: &mut [u8],
    out: &mut [u8],
)
    requires { (65032 ≤ length input.old) × (128 ≤ length out.old) }
    ensures { (length input.new ≡ length input.old) × (length out.new ≡ length out.old) }
{
    let mut run = new_run();
    let judged = for_each_part(reader, messages, "judge", input, |part, ended| {
        judge_part(writer, out, &mut run, part, ended)
    });
    if judged.is_ok() {
        tell_end(messages, run);
    }
}
