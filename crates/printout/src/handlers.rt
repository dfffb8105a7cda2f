// The lines of the handlers of an accepted table.
ghost use Rattle.std.specs.Prelude.{◌+◌, ◌*◌, ◌<◌, ◌≤◌, length};
ghost use Rattle.permset.specs.Sets.{within};
ghost use Rattle.table.specs.Code.{code};
ghost use Rattle.calculus.specs.Constraint.{L};
ghost use Rattle.calculus.specs.Layout.{sets};
ghost use Rattle.calculus.specs.Estimate.{permissions_at};
ghost use Rattle.text.specs.Writing.{Wrote};
ghost use Rattle.report.specs.Lines.{handler_line};
ghost use Rattle.printout.specs.Program.{handler_lines};
ghost use Rattle.printout.specs.Handlers.{Printable, here, Stepped};

use permset::PermSet;
use report::handler_line;
use rows::layout::Layout;
use table::{Handler, Item};
use table_links::item_at;

// How far the lines are written: the place after them, and how many there are.
#[derive(Clone, Copy)]
pub struct Cursor {
    pub at: usize,
    pub position: usize,
}

// The line of the handler h, whose first word is at p.
fn block_line(
    words: &[u32],
    rho: u32,
    est: &[u32],
    out: &mut [u8],
    p: usize,
    c: Cursor,
    h: Handler,
) -> usize
    requires { Printable words.now est.now × (p < length words.now) × (c.at + 96 ≤ length out.old) }
    ensures wrote { Wrote out.old c.at (handler_line c.position h.name (within h.guard.bits rho)
        (sets (code words.now) est.now (L p) 0) (permissions_at (code words.now) rho est.now p))
        out.new result }
    ensures upper_bound { result ≤ c.at + 96 }
{
    let at = Layout::of(words).flags(p);
    let w = est[at];
    let guard = h.guard;
    let entry = guard.within(PermSet { bits: rho });
    let live = w / 16777216 % 2 == 1;
    handler_line(out, c.at, c.position, h.name, entry, live, w % 16777216)
}

// The line of the handler at p, if one stands there.
fn handler_at(words: &[u32], rho: u32, est: &[u32], out: &mut [u8], p: usize, c: Cursor) -> Cursor
    requires printable { Printable words.now est.now × (p < length words.now) × (c.position ≤ 32) }
    requires p_in_bounds { c.at + 96 * length (here words.now p) ≤ length out.old }
    ensures { Stepped words.now rho est.now out.old p c.at c.position out.new result.at result.position }
{
    match item_at(words, p) {
        Item::Gap => c,
        Item::Block(h) => {
            let at = block_line(words, rho, est, out, p, c, h);
            Cursor {
                at,
                position: c.position + 1,
            }
        }
        Item::Term(_) => c,
    }
}

// The lines of all handlers, from the place `start` on.
pub fn handler_lines(words: &[u32], rho: u32, est: &[u32], out: &mut [u8], start: usize) -> usize
    requires { Printable words.now est.now × (start + 3072 ≤ length out.old) }
    ensures { Wrote out.old start (handler_lines (code words.now) rho est.now 0
        (code words.now).blocks) out.new result }
{
    let mut c = Cursor {
        at: start,
        position: 0,
    };
    for p in 0..words.len() {
        c = handler_at(words, rho, est, out, p, c);
    }
    c.at
}
