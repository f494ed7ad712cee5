// probe CALL: reads lines from standard input and prints, a line each, what the call answers, `refused` with the number of a refusal, or `unreadable`. The
// calls frontier, direct, minus, enumerate, table, pattern and bbbv take lines `R C v v v ..`, and verdict and total, with the start's row and column,
// `R C r c v v v ..`; total is the verdict of a board that shows its mine total. A line of more than 16,384 bytes is unreadable. table prints the table of each
// block, for which 16,384 bytes are lent; past that it is `refused 9`.
#![tactic(auto)]

use answers::{Call, call_line};
use inputs::for_each_byte_in_parts;
use inputs::lines::Line;
use std::env::Env;
use std::io::{Read, Write};

// A call that is asked line by line: the line that is coming, and room for an answer, of which the tables of a position are the longest.
#[derive(Drop)]
struct Asking {
    call: Call,
    line: Line<16384>,
    out: [u8; 262144],
}

// Prints bytes. Where that fails there is nobody left to tell.
fn print<W: Write>(writer: &mut W, bytes: &[u8]) {
    let _ = writer.write_all(bytes);
}

impl Asking {
    // Prints the answer to the line; one that did not fit its buffer is unreadable.
    fn answer<W: Write>(&mut self, writer: &mut W) {
        let Some(line) = self.line.text() else {
            print(writer, b"unreadable\n");
            return;
        };
        let n = call_line(self.call, line, &mut self.out);
        print(writer, &self.out[..n]);
        print(writer, b"\n");
    }

    // Takes in one byte: the line's next, or its end.
    fn take<W: Write>(&mut self, writer: &mut W, byte: u8) {
        if byte == b'\n' {
            self.answer(writer);
            self.line.clear();
        } else {
            self.line.put(byte);
        }
    }
}

// Answers the lines of an input; the last need not have an end.
fn run<R: Read, W: Write>(reader: &mut R, writer: &mut W, call: Call) {
    let mut asking = Asking {
        call,
        line: Line::new(),
        out: [0; 262144],
    };
    for_each_byte_in_parts(reader, |byte| asking.take(writer, byte));
    if !asking.line.is_empty() {
        asking.answer(writer);
    }
}

fn main(rt: HostRuntime) {
    let mut word = [0u8; 4096];
    let len = rt.arg(1, &mut word).unwrap_or(0);
    match Call::named(&word[..len]) {
        Some(call) => run(&mut rt.stdin(), &mut rt.stdout(), call),
        None => {
            let _ = rt.stderr().write_all(
                b"usage: probe frontier|direct|minus|enumerate|table|pattern|bbbv|verdict|total < LINES\n",
            );
        }
    }
}
