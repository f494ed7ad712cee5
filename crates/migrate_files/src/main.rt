// migrate_files: migrates the files of data/ one after another, as migrate does standard input: unknown marks with good records behind them, short records, and inputs longer
// than one read.
#![tactic(auto)]

use inputs::with_file;
use migrating::migrate_stored;

// The files, in the order in which they are migrated.
const NAMES: [&str; 18] = [
    "empty",
    "lone_byte",
    "mark_alone",
    "whole",
    "unknown_mark_between",
    "total_mark_between",
    "edgeless_mark_first",
    "unknown_mark_without_a_record",
    "unknown_first_byte",
    "lost_byte",
    "lone_byte_behind",
    "cut_after_size",
    "cut_in_head",
    "cut_before_cells",
    "cut_in_cells",
    "large_size_without_its_cells",
    "mark_across_reads",
    "copied_across_reads",
];

// Prints the file's name and what its records become.
fn migrate_file(rt: &HostRuntime, name: &str) {
    let mut input = [0u8; 65536];
    let _ = println!(rt; "{name}:");
    with_file(rt, name, |file| {
        migrate_stored(file, &mut rt.stdout(), &mut rt.stderr(), &mut input);
        let _ = println!(rt; "");
    });
}

fn main(rt: HostRuntime) {
    for name in NAMES {
        migrate_file(&rt, name);
    }
}
