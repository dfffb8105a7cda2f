// One step of the report: what a piece of the stream calls for, and its text.
ghost use Rattle.std.specs.Prelude.{◌≡◌, ◌+◌, ◌*◌, ◌≤◌, length};
ghost use Rattle.class_report.specs.Stream.{number};
ghost use Rattle.class_report.specs.Steps.{at_end, broken_task, front_task, full_task, task_for, room, out_after, Done, SoundFor};
ghost use Rattle.class_report.specs.Steps.{text as Steps·text, step as Steps-step};

use crate::counts::{position, tallied};
use crate::judge::judge;
use crate::lines::{put_totals, system_line};
use crate::stream::{front_of, word_at};
use crate::{Fault, Status, Step, Tally, Task};
use fingerprint::fingerprint;
use report::refusal_line;

// What is known only where the stream has ended.
fn at_end(ended: bool, task: Task) -> Task
    ensures { result ≡ at_end ended task }
{
    if ended { task } else { Task::More }
}

fn broken_task(ended: bool, fault: Fault) -> Task
    ensures { result ≡ broken_task ended fault }
{
    match fault {
        Fault::TooMany => Task::Refusal(Fault::TooMany),
        Fault::TooLong => Task::Refusal(Fault::TooLong),
        Fault::CutShort => at_end(ended, Task::Refusal(Fault::CutShort)),
    }
}

fn front_task(ended: bool, front: Result<Option<usize>, Fault>) -> Task
    ensures { result ≡ front_task ended front }
{
    match front {
        Ok(whole) => match whole {
            None => at_end(ended, Task::Totals),
            Some(size) => Task::System(size),
        },
        Err(fault) => broken_task(ended, fault),
    }
}

// After the last system that a stream may have.
fn full_task(ended: bool, piece: &[u8]) -> Task
    ensures { result ≡ full_task ended piece.now }
{
    if piece.len() == 0 {
        at_end(ended, Task::Totals)
    } else {
        Task::Refusal(Fault::TooMany)
    }
}

// What a piece calls for.
fn task_for(position: usize, ended: bool, piece: &[u8]) -> Task
    ensures { result ≡ task_for position ended piece.now }
{
    if position < 10000 {
        front_task(ended, front_of(piece))
    } else {
        full_task(ended, piece)
    }
}

// The number of a fault; a function, as for the refusals that have a place.
fn fault_number(fault: Fault) -> u32
    ensures { result ≡ number fault }
{
    match fault {
        Fault::TooMany => 61,
        Fault::TooLong => 59,
        Fault::CutShort => 58,
    }
}

// The totals, and the end.
fn totals_step(tally: Tally, piece: &[u8], out: &mut [u8; 2400]) -> Step
    ensures { Done tally piece.now Task.Totals out.old result out.new }
{
    let leaks = tally.leaks;
    let size = put_totals(out, tally.accepted, tally.refused, &leaks);
    Step {
        status: Status::Done,
        tally,
        used: 0,
        size,
    }
}

// The line of a fault, and the end.
fn refusal_step(tally: Tally, piece: &[u8], fault: Fault, out: &mut [u8; 2400]) -> Step
    ensures { Done tally piece.now (Task.Refusal fault) out.old result out.new }
{
    let size = refusal_line(out, 0, fault_number(fault), position(tally));
    Step {
        status: Status::Done,
        tally,
        used: 0,
        size,
    }
}

// The line of the system at the front of a piece.
fn system_step(tally: Tally, piece: &[u8], words: usize, out: &mut [u8; 2400]) -> Step
    requires { (words ≤ 256) × (8 + 4 * words ≤ length piece.now) }
    ensures { Done tally piece.now (Task.System words) out.old result out.new }
{
    let used = 8 + 4 * words;
    let bytes = &piece[8..used];
    let outcome = judge(bytes, word_at(piece, 4));
    let size = system_line(out, position(tally), fingerprint(bytes), outcome);
    Step {
        status: Status::Line,
        tally: tallied(tally, outcome),
        used,
        size,
    }
}

// One step of the report on a stream that comes in pieces. The piece holds the next bytes of the stream, and all that are left of it where it has
// ended. The line of the system at its front is written to the start of out; where the stream ends or has a fault, the totals or the line of
// the fault; and nothing where more bytes are needed.
pub fn step(tally: Tally, piece: &[u8], ended: bool, out: &mut [u8; 2400]) -> Step
    ensures says { result ≡ Steps-step tally piece.now ended }
    ensures text { out.new ≡ out_after (Steps·text tally piece.now ended) out.old }
    ensures fits { result.size ≤ room }
    ensures used { result.used ≤ length piece.now }
    ensures sound { SoundFor piece.now }
{
    match task_for(position(tally), ended, piece) {
        Task::More => Step {
            status: Status::More,
            tally,
            used: 0,
            size: 0,
        },
        Task::Totals => totals_step(tally, piece, out),
        Task::Refusal(fault) => refusal_step(tally, piece, fault, out),
        Task::System(words) => system_step(tally, piece, words, out),
    }
}
