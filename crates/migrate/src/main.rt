// migrate: reads stored board records from standard input, and writes them to standard output with the start that 255,255 meant.
#![tactic(auto)]

use migrating::migrate_stored;
use telling::tell_usage;

fn main(rt: HostRuntime) {
    let mut input = [0u8; 65536];
    tell_usage(
        &rt,
        "usage: migrate < STORED > MIGRATED\nStored board records are read from standard input and written to standard output, where a start of 255,255 has become the first 0.\n",
    );
    migrate_stored(
        &mut rt.stdin(),
        &mut rt.stdout(),
        &mut rt.stderr(),
        &mut input,
    );
}
