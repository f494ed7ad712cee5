// What the programs do with an input: give it to a step, part by part or byte by byte, up to its end, and open a file for that. What the bytes come to is decided by the
// step; here they are only moved. A read or a write that fails is told on standard error with its cause.
#![tactic(auto)]

ghost use Rattle.std.specs.Prelude.{◌≡◌, ◌≤◌, ◌<◌, Bool, IfOk, List, None, Ok, ℕ, length, take};
ghost use Rattle.std.specs.Io.KnownBytes.{Consumes};
ghost use Rattle.std.specs.List.{FoldsTo};
ghost use Rattle.inputs.specs.Parts.{TakesAtMost, TakesSome};

use run::keep_rest;
use std::fs::File;
use std::io;
use std::io::{Read, Write};
use telling::tell_failure;

pub mod lines;
#[cfg(test)]
mod tests;

// An input that was not taken to its end; what failed is told.
#[derive(Clone, Copy, PartialEq, Eq)]
pub struct Stopped;

// Gives a step what has come of an input, again and again. The step takes bytes from the front and says how many, or `None` where it wants no more; what it leaves is kept,
// and the next part begins with it. It is told whether anything follows: a read that brings nothing is the input's end. What was read before a read that fails is given to
// it all the same. The loop ends, as every function does, after more reads than any input has bytes.
pub fn for_each_part<R: Read, E: Write, F: FnMut(&mut [u8], bool) -> io::Result<Option<usize>>>(
    reader: &mut R,
    messages: &mut E,
    program: &str,
    input: &mut [u8],
    step: F,
) -> Result<(), Stopped>
    requires callable { F.IsAlwaysCallable step }
    requires within { (f : F) (part : _) (ended : Bool) (r : _) (after : _) (next : F) → F.step f part ended r after next → TakesAtMost part.now r }
    ensures input_len { length input.new ≡ length input.old }
    ensures wants_no_more { IfOk result (λ _. (f : F) × (part : _) × (ended : Bool) × (after : _) × (next : F) × F.step f part ended (Ok None) after next) }
{
    for_each_part_with_room::<0, R, E, F>(reader, messages, program, input, step)
}

// The same for a step that takes some of a part that has `LEAST` bytes or more, where that is above 0. Then, where the input has as many, there is room for every read, so that
// one that brings nothing is the input's end.
pub fn for_each_part_with_room<
    const LEAST: usize,
    R: Read,
    E: Write,
    F: FnMut(&mut [u8], bool) -> io::Result<Option<usize>>,
>(
    reader: &mut R,
    messages: &mut E,
    program: &str,
    input: &mut [u8],
    mut step: F,
) -> Result<(), Stopped>
    requires callable { F.IsAlwaysCallable step }
    requires within { (f : F) (part : _) (ended : Bool) (r : _) (after : _) (next : F) → F.step f part ended r after next → TakesAtMost part.now r }
    requires takes_some { (f : F) (part : _) (ended : Bool) (r : _) (after : _) (next : F) → F.step f part ended r after next → TakesSome LEAST part.now r }
    ensures input_len { length input.new ≡ length input.old }
    ensures wants_no_more { IfOk result (λ _. (f : F) × (part : _) × (ended : Bool) × (after : _) × (next : F) × F.step f part ended (Ok None) after next) }
{
    let mut held = 0;
    for _ in 0..u64::MAX {
        let got = reader.read(&mut input[held..]).map_err(|error| stop(
            messages,
            program,
            "reading the input",
            error,
        ));
        let end = held + got.unwrap_or(0);
        let taken = step(&mut input[..end], got == Ok(0)).map_err(|error| stop(
            messages,
            program,
            "writing standard output",
            error,
        ))?;
        got?;
        let Some(taken) = taken else {
            return Ok(());
        };
        held = keep_rest(input, taken, end);
    }
    Err(Stopped)
}

// Tells what failed, and why.
fn stop<E: Write>(messages: &mut E, program: &str, what: &str, error: io::Error) -> Stopped {
    let _ = write!(messages, "{program}: ");
    tell_failure(messages, what.as_bytes(), error);
    Stopped
}

// Gives a step each byte of an input, in their order, up to the input's end or a read that fails. What a read brings is given before the next read, which has room for 65,536
// bytes again.
pub fn for_each_byte<R: Read, F: FnMut(u8)>(reader: &mut R, mut step: F)
    requires { F.IsAlwaysCallable step }
    ensures { (bytes : List ℕ) × (last : F) × Consumes (R.remaining reader.old) (R.remaining reader.new) bytes × FoldsTo (λ p x q. F.step p x tt q) step bytes last }
{
    let mut part = [0u8; 65536];
    for _ in 0..u64::MAX {
        match reader.read(&mut part) {
            Ok(came) if 0 < came => give_all(&part[..came], &mut step),
            _ => return,
        }
    }
}

// The same in parts of 65,536 bytes: a part is read whole, as far as the input goes, before the first of its bytes is given.
pub fn for_each_byte_in_parts<R: Read, F: FnMut(u8)>(reader: &mut R, step: F)
    requires { F.IsAlwaysCallable step }
    ensures { (bytes : List ℕ) × (last : F) × Consumes (R.remaining reader.old) (R.remaining reader.new) bytes × FoldsTo (λ p x q. F.step p x tt q) step bytes last }
{
    for_each_byte_of(reader, u64::MAX, step)
}

// The same of no more than `parts` parts.
pub fn for_each_byte_of<R: Read, F: FnMut(u8)>(reader: &mut R, parts: u64, mut step: F)
    requires { F.IsAlwaysCallable step }
    ensures { (bytes : List ℕ) × (last : F) × Consumes (R.remaining reader.old) (R.remaining reader.new) bytes × FoldsTo (λ p x q. F.step p x tt q) step bytes last }
{
    let mut part = [0u8; 65536];
    for _ in 0..parts {
        let came = read_full(reader, &mut part);
        give_all(&part[..came], &mut step);
        if came < part.len() {
            return;
        }
    }
}

// Reads until the part is full, the input ends or a read fails: how many bytes are in.
fn read_full<R: Read>(reader: &mut R, part: &mut [u8]) -> usize
    ensures within { (result ≤ length part.new) × (length part.new ≡ length part.old) }
    ensures read { Consumes (R.remaining reader.old) (R.remaining reader.new) (take result part.new) }
{
    let mut done = 0;
    while done < part.len() {
        match reader.read(&mut part[done..]) {
            Ok(came) if 0 < came => done += came,
            _ => return done,
        }
    }
    done
}

// Gives a step each byte of a part.
fn give_all<F: FnMut(u8)>(part: &[u8], step: &mut F)
    requires { F.IsAlwaysCallable step.old }
    ensures callable { F.IsAlwaysCallable step.new }
    ensures gave { FoldsTo (λ p x q. F.step p x tt q) step.old part.now step.new }
{
    let mut rest = part;
    while let Some((&byte, tail)) = rest.split_first() {
        step(byte);
        rest = tail;
    }
}

// Opens a file for a step; where that fails, tells why.
pub fn with_file<F: FnOnce(&mut File)>(rt: &HostRuntime, name: &str, step: F)
    requires { F.IsAlwaysCallable step }
{
    match File::open(rt, name) {
        Ok(mut file) => step(&mut file),
        Err(error) => tell_failure(&mut rt.stderr(), name.as_bytes(), error),
    }
}
