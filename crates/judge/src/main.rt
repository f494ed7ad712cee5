// judge: reads board records from standard input, and prints a header and a line for each.
#![tactic(auto)]

use reading::judge_records;
use telling::tell_usage;

fn main(rt: HostRuntime) {
    let mut input = [0u8; 65536];
    let mut out = [0u8; 65536];
    tell_usage(
        &rt,
        "usage: judge < BOARDS\nBoard records are read from standard input, and a line for each is printed: number, verdict, opened cells, grade, rounds.\n",
    );
    judge_records(
        &mut rt.stdin(),
        &mut rt.stdout(),
        &mut rt.stderr(),
        &mut input,
        &mut out,
    );
}
