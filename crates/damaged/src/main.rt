// damaged: judges the files of data/ one after another, as judge does standard input: inputs that end inside a record, unknown marks, and refused boards
// between two equal ones, whose lines must be equal.
#![tactic(auto)]

use inputs::with_file;
use reading::judge_records;

// The files, in the order in which they are judged.
const NAMES: [&str; 20] = [
    "empty",
    "one_byte",
    "unknown_mark",
    "unknown_mark_alone",
    "unknown_mark_between",
    "cut_after_2",
    "cut_after_3",
    "cut_after_4",
    "cut_after_5",
    "cut_after_6",
    "cut_in_cells",
    "refused_size",
    "refused_largest",
    "refused_cell",
    "refused_start",
    "refused_number",
    "refused_mine",
    "refused_open_start",
    "total_mark",
    "total_mark_refused",
];

// Prints the file's name and the answers to its records.
fn judge_file(rt: &HostRuntime, name: &str) {
    let mut input = [0u8; 65536];
    let mut out = [0u8; 65536];
    let _ = println!(rt; "{name}:");
    with_file(rt, name, |file| {
        judge_records(
            file,
            &mut rt.stdout(),
            &mut rt.stderr(),
            &mut input,
            &mut out,
        )
    });
}

fn main(rt: HostRuntime) {
    for name in NAMES {
        judge_file(&rt, name);
    }
}
