// The report on a class: a stream of systems on standard input, a line for each and the totals on standard output. The stream is read in pieces,
// into one buffer.
#![tactic(auto)]

ghost use Rattle.std.specs.Prelude.{◌≤◌, length, IfOk};

use class_report::steps::step;
use class_report::window::keep;
use class_report::{Status, Tally, empty_tally};
use std::io;
use std::io::{Read, Write};

// The counts so far, which bytes of the buffer are not yet used, whether the stream has ended, and whether its report has.
#[derive(Clone, Copy)]
struct Window {
    tally: Tally,
    at: usize,
    end: usize,
    ended: bool,
    done: bool,
}

// Puts what comes next behind the bytes that are held, and answers where they end.
fn refill(input: &mut impl Read, buffer: &mut [u8], at: usize, end: usize) -> io::Result<usize>
    ensures { IfOk result (λ n. n ≤ length buffer.old) }
{
    let kept = keep(buffer, at, end);
    let got = streams::read_full(input, &mut buffer[kept..])?;
    Ok(kept + got)
}

// A stream that does not fill the buffer has ended.
fn filled(
    input: &mut impl Read,
    tally: Tally,
    buffer: &mut [u8],
    at: usize,
    end: usize,
) -> io::Result<Window>
    ensures { IfOk result (λ w. (w.at ≤ w.end) × (w.end ≤ length buffer.old)) }
{
    let size = refill(input, buffer, at, end)?;
    Ok(Window {
        tally,
        at: 0,
        end: size,
        ended: size < buffer.len(),
        done: false,
    })
}

// One step, whose text is written.
fn turn(
    input: &mut impl Read,
    out: &mut impl Write,
    w: Window,
    buffer: &mut [u8],
    text: &mut [u8; 2400],
) -> io::Result<Window>
    requires { (w.at ≤ w.end) × (w.end ≤ length buffer.old) }
    ensures { IfOk result (λ next. (next.at ≤ next.end) × (next.end ≤ length buffer.old)) }
{
    let at = w.at;
    let end = w.end;
    let before = w.tally;
    let s = step(before, &buffer[at..end], w.ended, text);
    streams::first(out, text, s.size)?;
    let tally = s.tally;
    let status = s.status;
    match status {
        Status::More => filled(input, tally, buffer, at, end),
        Status::Line => Ok(Window {
            tally,
            at: at + s.used,
            end,
            ended: w.ended,
            done: false,
        }),
        Status::Done => Ok(Window {
            tally,
            at,
            end,
            ended: w.ended,
            done: true,
        }),
    }
}

// Every turn writes a line or fills the buffer: a stream of the most systems takes less than 10,200 of them.
const MOST_TURNS: u32 = 65536;

// The report, turn by turn.
fn report(
    input: &mut impl Read,
    out: &mut impl Write,
    buffer: &mut [u8],
    text: &mut [u8; 2400],
) -> io::Result<()> {
    let mut w = Window {
        tally: empty_tally(),
        at: 0,
        end: 0,
        ended: false,
        done: false,
    };
    for _ in 0..MOST_TURNS {
        w = turn(input, out, w, buffer, text)?;
        if w.done {
            break;
        }
    }
    Ok(())
}

fn main(rt: HostRuntime) -> io::Result<()> {
    let mut buffer = [0u8; 65536];
    let mut text = [0u8; 2400];
    report(&mut rt.stdin(), &mut rt.stdout(), &mut buffer, &mut text)
}
