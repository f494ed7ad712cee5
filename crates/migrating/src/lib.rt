// Migration over a reader and a writer: read, migrate, write, keep what did not go out. What the bytes become is decided by `migrate_part`, whose contract holds wherever
// the input is cut; here they are only moved, and nothing else goes to the writer. How the run ended is told to a second writer, which is standard error: a read or a write
// that failed with its cause, and then nothing more; else where copying began, and a summary.
#![tactic(auto)]

ghost use Rattle.std.specs.Prelude.{◌≡◌, ◌≤◌, length};
ghost use Rattle.inputs.specs.Parts.{TakesAtMost, TakesSome};

use inputs::for_each_part_with_room;
use migration::{Counts, counts_after, migrate_part, no_counts};
use std::io;
use std::io::{Read, Write};

// How far a run has come: whether all is copied by now, and the records counted.
#[derive(Clone, Copy)]
struct Progress {
    copying: bool,
    counts: Counts,
}

// Migrates a part of the input where it stands, and writes what goes out: how many bytes that is, where the input has not ended. Of a part that has room for any record
// something goes out, so that there is always room for a read.
fn move_part<W: Write>(
    writer: &mut W,
    progress: &mut Progress,
    part: &mut [u8],
    ended: bool,
) -> io::Result<Option<usize>>
    ensures takes { TakesAtMost part.old result }
    ensures progress { TakesSome 65031 part.old result }
{
    let moved = migrate_part(part, progress.copying, ended);
    writer.write_all(&part[..moved.len])?;
    *progress = Progress {
        copying: moved.copying,
        counts: counts_after(progress.counts, moved.counts),
    };
    Ok((!ended).then_some(moved.len))
}

// At which byte copying began, behind the records counted.
fn tell_copied<E: Write>(messages: &mut E, at: usize) {
    let _ = writeln!(
        messages,
        "migrate: from byte {at} on the input was copied: no whole record with the mark 4D 42 begins there"
    );
}

// `migrate: 1500 records, 20 changed`.
fn tell_summary<E: Write>(messages: &mut E, counts: Counts) {
    let Counts {
        records,
        changed,
        ..
    } = counts;
    let noun = if records == 1 { "record" } else { "records" };
    let _ = writeln!(messages, "migrate: {records} {noun}, {changed} changed");
}

// How a run ended that has come to the input's end.
fn tell_end<E: Write>(messages: &mut E, progress: Progress) {
    if progress.copying {
        tell_copied(messages, progress.counts.bytes);
    }
    tell_summary(messages, progress.counts);
}

// Migrates the stored records that a reader gives to a writer. It answers nothing, and no contract can say what is read and written. The input has room for the longest
// record and a byte more.
pub fn migrate_stored<R: Read, W: Write, E: Write>(
    reader: &mut R,
    writer: &mut W,
    messages: &mut E,
    input: &mut [u8],
)
    requires { 65032 ≤ length input.old }
    ensures { length input.new ≡ length input.old }
{
    let mut progress = Progress {
        copying: false,
        counts: no_counts(),
    };
    let migrated = for_each_part_with_room::<65031, _, _, _>(
        reader,
        messages,
        "migrate",
        input,
        |part, ended| { move_part(writer, &mut progress, part, ended) },
    );
    if migrated.is_ok() {
        tell_end(messages, progress);
    }
}
