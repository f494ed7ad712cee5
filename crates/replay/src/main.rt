// replay: runs the stored answers in data/, one file for each call, in which a line that is asked and the line that was answered follow each other. They are the
// Rust's; those of total, a call that the Rust has not, are of another judge, written from the definition alone. It names each case whose answer differs, and says how
// many agree. Last it runs fifteen answers that are wrong on purpose, and says how many of them it took for right.
#![tactic(auto)]

ghost use Rattle.std.specs.Prelude.{◌≡◌, length};
ghost use Rattle.replay.specs.Stored.{agreeing, counted, judged, one_more};

use answers::{Call, call_line};
use inputs::lines::Line;
use inputs::{for_each_byte_of, with_file};

// The calls whose stored answers are run.
const STORED: [Call; 8] = [
    Call::Frontier,
    Call::Direct,
    Call::Minus,
    Call::Enumerate,
    Call::Table,
    Call::Pattern,
    Call::Verdict,
    Call::Total,
];

// The files of answers that are wrong on purpose.
const WRONG: [(Call, &str); 8] = [
    (Call::Frontier, "wrong_frontier"),
    (Call::Direct, "wrong_direct"),
    (Call::Minus, "wrong_minus"),
    (Call::Enumerate, "wrong_enumerate"),
    (Call::Table, "wrong_table"),
    (Call::Pattern, "wrong_pattern"),
    (Call::Verdict, "wrong_verdict"),
    (Call::Total, "wrong_total"),
];

// The cases so far.
#[derive(Clone, Copy)]
struct Counts {
    agree: usize,
    differ: usize,
}

// Which line of a case is coming.
#[derive(Clone, Copy)]
enum Coming {
    Asked,
    Answer,
}

// A file that is run: whether a case that differs is named, which line is coming, the lines of the case as far as they have come, room for our answer, and the cases so far.
#[derive(Drop)]
struct Replay {
    call: Call,
    named: bool,
    coming: Coming,
    asked: Line<16384>,
    answer: Line<65536>,
    out: [u8; 65536],
    counts: Counts,
}

// A count of cases and one more, up to a count that no file has.
fn one_more(cases: usize) -> usize
    ensures { result ≡ one_more cases }
{
    if cases < 0xffff_ffff {
        cases + 1
    } else {
        cases
    }
}

impl Counts {
    // Before the first case.
    fn new() -> Counts {
        Counts {
            agree: 0,
            differ: 0,
        }
    }

    // One case more.
    fn with(self, agrees: bool) -> Counts
        ensures { result ≡ counted agrees self }
    {
        if agrees {
            Counts {
                agree: one_more(self.agree),
                ..self
            }
        } else {
            Counts {
                differ: one_more(self.differ),
                ..self
            }
        }
    }

    // Prints how many cases agree and differ.
    fn print<P: Print>(self, rt: &P) {
        let _ = println!(rt; "{} agree, {} differ", self.agree, self.differ);
    }
}

// Does our answer to a line equal the stored one? Not where one of the lines did not fit its buffer.
fn agrees(call: Call, asked: &Line<16384>, answer: &Line<65536>, out: &mut [u8]) -> bool
    ensures { result ≡ agreeing call asked.now answer.now (length out.old) }
{
    let (Some(asked), Some(answer)) = (asked.text(), answer.text()) else {
        return false;
    };
    let n = call_line(call, asked, out);
    &out[..n] == answer
}

// Prints bytes. Where that fails there is nobody left to tell.
fn print_bytes<P: Print>(rt: &P, bytes: &[u8]) {
    let _ = rt.write_all(bytes);
}

impl Replay {
    // Names a case that differs by its line, as far as that fits its buffer.
    fn name_case<P: Print>(&self, rt: &P) {
        print_bytes(rt, b"differs: ");
        print_bytes(rt, self.asked.front());
        print_bytes(rt, b"\n");
    }

    // The case has come: it is counted, and named where it differs.
    fn judge<P: Print>(&mut self, rt: &P)
        ensures { self.new ≡ judged (agreeing self.old.call self.old.asked self.old.answer 65536) self.new.out self.old }
    {
        let agrees = agrees(self.call, &self.asked, &self.answer, &mut self.out);
        if self.named && !agrees {
            self.name_case(rt);
        }
        self.counts = self.counts.with(agrees);
        self.asked.clear();
        self.answer.clear();
        self.coming = Coming::Asked;
    }

    // Takes in one byte.
    fn take<P: Print>(&mut self, rt: &P, byte: u8) {
        match (self.coming, byte) {
            (Coming::Asked, b'\n') => self.coming = Coming::Answer,
            (Coming::Answer, b'\n') => self.judge(rt),
            (Coming::Asked, _) => self.asked.put(byte),
            (Coming::Answer, _) => self.answer.put(byte),
        }
    }
}

// So many parts of a file are run, 4 GiB.
const PARTS: u64 = 65536;

impl Replay {
    // Before the first case.
    fn new(call: Call, named: bool) -> Replay {
        Replay {
            call,
            named,
            coming: Coming::Asked,
            asked: Line::new(),
            answer: Line::new(),
            out: [0; 65536],
            counts: Counts::new(),
        }
    }

    // Runs a file of a call's answers.
    fn run_file(&mut self, rt: &HostRuntime, name: &str) {
        with_file(rt, name, |file| {
            for_each_byte_of(file, PARTS, |byte| self.take(rt, byte))
        });
    }

    // Goes over to another call. A case that a file has left unfinished goes on in the next one, where of its lines the lengths are known and the bytes are 0.
    fn turn_to(&mut self, call: Call) {
        self.call = call;
        self.asked.blank();
        self.answer.blank();
    }
}

// Runs the stored answers of a call and says how many agree.
fn run_call(rt: &HostRuntime, call: Call) {
    let name = call.name();
    let _ = print!(rt; "{name}: ");
    let mut replay = Replay::new(call, true);
    replay.run_file(rt, name);
    replay.counts.print(rt);
}

// The control: runs the answers that are wrong, without naming them, and says how many agree.
fn run_wrong(rt: &HostRuntime) {
    let mut replay = Replay::new(Call::Frontier, false);
    for (call, name) in WRONG {
        replay.turn_to(call);
        replay.run_file(rt, name);
    }
    let _ = print!(rt; "control: ");
    replay.counts.print(rt);
}

fn main(rt: HostRuntime) {
    for call in STORED {
        run_call(&rt, call);
    }
    run_wrong(&rt);
}
