// What the programs tell on standard error: why a read, a write or an opening failed, and at a terminal what is to be given. Where telling fails there is nobody left to
// tell.
#![tactic(auto)]

use std::io::{Cursor, IsTerminal, Write};
use std::{io, str};

// The system's words for an error, `Is a directory`, of the text `Is a directory (os error 21)`.
fn words_of(text: &str) -> &str {
    text.split_once(" (os error ")
        .map_or(text, |(words, _)| words)
}

// Tells a line: what failed, a colon, and the system's words for the cause.
pub fn tell_failure<W: Write>(messages: &mut W, what: &[u8], error: io::Error) {
    let mut text = Cursor::new([0u8; 256]);
    let _ = write!(text, "{error}");
    let len = text.position().min(256) as usize;
    let bytes = text.into_inner();
    let cause = str::from_utf8(&bytes[..len]).map_or("", words_of);
    let _ = messages.write_all(what);
    let _ = writeln!(messages, ": {cause}");
}

// At a terminal nothing is given yet: says what the program waits for.
pub fn tell_usage(rt: &HostRuntime, usage: &str) {
    if rt.stdin().is_terminal() {
        let _ = rt.stderr().write_all(usage.as_bytes());
    }
}
