// streams: judges the 70,000 bytes of data/seventy_thousand as judge does standard input, with an input buffer of each size from the least that holds the longest record
// and a byte more to a hundred bytes beyond, so that a read ends at each place of the records that stand there. The output buffer has room for two lines.
#![tactic(auto)]

ghost use Rattle.std.specs.Prelude.{◌≤◌};

use inputs::with_file;
use reading::judge_records;

// Judges the file with a buffer that holds so many bytes of the input.
fn judge_by(rt: &HostRuntime, size: usize)
    requires { (65032 ≤ size) × (size ≤ 65536) }
{
    let mut input = [0u8; 65536];
    let mut out = [0u8; 128];
    let _ = println!(rt; "input of {size} bytes at a time:");
    with_file(rt, "seventy_thousand", |file| {
        judge_records(
            file,
            &mut rt.stdout(),
            &mut rt.stderr(),
            &mut input[..size],
            &mut out,
        )
    });
}

fn main(rt: HostRuntime) {
    for size in 65032..65133 {
        judge_by(&rt, size);
    }
}
