// The joined table.
ghost use Rattle.std.specs.Prelude.{◌≡◌, map, ◌+◌, ◌≤◌, length};
ghost use Rattle.table.specs.Scan.{accepted, narrow_reading};
ghost use Rattle.blocks.specs.Blocks.{blocks};
ghost use Rattle.overlay.specs.Join.{join_answer, out_after};
ghost use Rattle.overlay.specs.Answers.{joined_as};
ghost use Rattle.overlay.specs.Parts.{part as part_of, given, is_new, AppendedTo, PutTo};

use crate::search::{block_end, seek};
use crate::{Fault, check};
use table::{argument_of, kinds};

// Word 0 of a table without handlers.
const NO_HANDLERS: u32 = kinds::TABLE * kinds::ARGUMENTS;

// Which blocks of a table are put to the joined table: each, or the other table's with its key in its place; or only those whose key the other
// table does not have.
#[derive(Clone, Copy)]
enum Wanted {
    Each,
    New,
}

// How far the output is written, and how many blocks were put there.
#[derive(Clone, Copy)]
struct Put {
    end: usize,
    count: usize,
}

// The words of a part, written from a place on where they have room; the place after them. A loop: with `copy_from_slice` here the archive for C
// asks for `memmove` (tests/symbols).
fn append(out: &mut [u32], at: usize, part: &[u32]) -> usize
    requires { (at ≤ 131072) × (length part.now ≤ 1024) }
    ensures { AppendedTo at part.now out.old out.new result }
{
    let end = at + part.len();
    if out.len() < end {
        return end;
    }
    for (i, &word) in part.iter().enumerate() {
        out[at + i] = word;
    }
    end
}

// What the block at a place of a table gives to the joined table, written from a place on.
fn put_block(
    out: &mut [u32],
    at: usize,
    table: &[u32],
    start: usize,
    end: usize,
    other: &[u32],
    wanted: Wanted,
) -> usize
    requires { (at ≤ 131072) × (start + 2 ≤ end) × (end ≤ length table.now) × (length table.now ≤ 1024) × (narrow_reading other.now ≡ accepted) }
    ensures { AppendedTo at (given (is_new wanted) (blocks other.now) (part_of start end table.now)) out.old out.new result }
{
    let name = argument_of(table[start]);
    let perms = argument_of(table[start + 1]);
    match seek(other, name, perms) {
        Some((a, e)) => match wanted {
            Wanted::New => at,
            Wanted::Each => append(out, at, &other[a..e]),
        },
        None => append(out, at, &table[start..end]),
    }
}

// What the blocks of a table give to the joined table, one after the other, written from a place on.
fn put_blocks(out: &mut [u32], start: usize, table: &[u32], other: &[u32], wanted: Wanted) -> Put
    requires { (start ≤ 65536) × (narrow_reading table.now ≡ accepted) × (narrow_reading other.now ≡ accepted) }
    ensures { PutTo start (map (given (is_new wanted) (blocks other.now)) (blocks table.now)) out.old out.new result }
{
    let handlers = argument_of(table[0]);
    let mut at = 1;
    let mut end = start;
    let mut count = 0;
    for _ in 0..handlers {
        let next = block_end(table, at);
        let after = put_block(out, end, table, at, next, other, wanted);
        if end < after {
            count += 1;
        }
        end = after;
        at = next;
    }
    Put { end, count }
}

// The base's blocks, each replaced where the overlay has its key, then the overlay's new ones; how many words were written.
pub fn join(base: &[u32], overlay: &[u32], out: &mut [u32]) -> Result<usize, Fault>
    ensures answer { joined_as result ≡ join_answer base.now overlay.now (length out.old) }
    ensures out { out.new ≡ out_after base.now overlay.now out.old }
{
    check(base, overlay)?;
    let mut words = [0u32; 1024];
    let first = put_blocks(&mut words, 1, base, overlay, Wanted::Each);
    let middle = first.end;
    let second = put_blocks(&mut words, middle, overlay, base, Wanted::New);
    let end = second.end;
    let count = first.count + second.count;
    if 32 < count {
        return Err(Fault::TooManyHandlers);
    }
    if 1024 < end {
        return Err(Fault::TooManyWords);
    }
    if out.len() < end {
        return Err(Fault::ShortOutput);
    }
    words[0] = NO_HANDLERS + count as u32;
    append(out, 0, &words[..end]);
    Ok(end)
}
