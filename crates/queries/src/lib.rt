// Tests on an estimate: what its rows have, whether the guard of a clause passes, and whether a send starts a block. Nothing is written.
#![tactic(auto)]

ghost use Rattle.std.specs.Prelude.{◌≡◌, ◌+◌, ◌*◌, ◌/◌, ◌%◌, ◌^◌, ◌<◌, ◌≤◌, length, get_or};
ghost use Rattle.table.specs.Words.{argument};
ghost use Rattle.table.specs.Code.{Code};
ghost use Rattle.calculus.specs.Elements.{is_string};
ghost use Rattle.calculus.specs.Constraint.{L};
ghost use Rattle.calculus.specs.Layout.{sets, WellFormed};
ghost use Rattle.calculus.specs.Estimate.{found};
ghost use Rattle.rows.specs.Laid.{LaidOut, Sized};
ghost use Rattle.clauses.specs.Asks.{row_at};
ghost use Rattle.queries.specs.Passes.{FoundBy, PassedBy, Looks};
ghost use Rattle.queries.specs.Starts.{starts_at};
ghost use Rattle.queries.specs.Things.{Searched, common, both, Next};

use clauses::{Guard, Test};
use delivery::judge;
use permset::PermSet;
use rows::layout::Layout;
use rows::row::{any, next_common};
use table::argument_of;
use table_links::handler_at;

// The digit of a word of permissions and flags that says that it is live, behind those of the 24 permissions.
const LIVE_DIGIT: u32 = 24;

// The digits of a row's first word that are strings: all but the first 8.
const STRINGS: u32 = 4294967040;

// Whether p is live.
pub fn is_live(est: &[u32], l: Layout, p: usize) -> bool
    requires { Sized l est.now × (p < l.size) }
    ensures { (c : Code) → LaidOut c l → result ≡ sets c est.now (L p) 0 }
{
    let at = l.flags(p);
    (est[at] >> LIVE_DIGIT) % 2 == 1
}

// Whether the row r has the element v.
pub fn has(est: &[u32], l: Layout, r: usize, v: usize) -> bool
    requires { Sized l est.now × (r < 2 * l.size) × (v < 32 * l.lead + l.size) }
    ensures { (c : Code) → LaidOut c l → result ≡ sets c est.now (row_at r) v }
{
    let at = r * l.row + v / 32;
    (est[at] >> (v % 32) as u32) % 2 == 1
}

// Whether the row r has a string.
pub fn has_text(est: &[u32], l: Layout, r: usize) -> bool
    requires { Sized l est.now × (r < 2 * l.size) }
    ensures { (c : Code) → LaidOut c l → WellFormed c est.now → result ≡ found c est.now (row_at r) is_string }
{
    let at = r * l.row;
    est[at] & STRINGS != 0
}

// Whether the row r has something of the mask m.
pub fn has_some(est: &[u32], masks: &[u32], l: Layout, r: usize, m: usize) -> bool
    requires { Sized l est.now × (r < 2 * l.size) × (4 * l.row ≤ length masks.now) × (m < 4) }
    ensures { FoundBy l est.now masks.now r m result }
{
    let row = l.row;
    let at = r * row;
    let to = m * row;
    any(&est[at..at + row], &masks[to..to + row])
}

// Whether a guard passes.
pub fn holds(est: &[u32], masks: &[u32], l: Layout, g: Guard) -> bool
    requires { Sized l est.now × Looks l g × (4 * l.row ≤ length masks.now) }
    ensures { PassedBy l est.now masks.now g result }
{
    match g.test {
        Test::Never => false,
        Test::Free => true,
        Test::Has => has(est, l, 2 * g.a, g.v),
        Test::Some => has_some(est, masks, l, 2 * g.a, g.v),
        Test::Text => has_text(est, l, 2 * g.d),
        Test::TextHas => has_text(est, l, 2 * g.d) && has(est, l, 2 * g.a, g.v),
        Test::TextSome => has_text(est, l, 2 * g.d) && has_some(est, masks, l, 2 * g.a, g.v),
    }
}

// The digits that a row and a mask have in common, from that of the thing f to the end of its word.
fn common_from(est: &[u32], masks: &[u32], lead: usize, at: usize, to: usize, f: usize) -> u32
    requires { (f < 1024) × (lead ≤ 36) × (at + (lead + f / 32) < length est.now) × (to + (lead + f / 32) < length masks.now) }
    ensures { result ≡ common est.now masks.now at to (lead + f / 32) / 2 ^ (f % 32) }
{
    let k = lead + f / 32;
    (est[at + k] & masks[to + k]) >> (f % 32) as u32
}

// The first thing behind the word of `from` that the row r and the mask m have; the size of the table or more where there is none.
fn later_thing(est: &[u32], masks: &[u32], l: Layout, r: usize, m: usize, from: usize) -> usize
    requires searched { Searched l est.now masks.now r m × (from < l.size) }
    requires from_value { common est.now masks.now (r * l.row) (m * l.row) (l.lead + from / 32) / 2 ^ (from % 32) ≡ 0 }
    ensures { Next est.now masks.now l.lead (r * l.row) (m * l.row) l.size from result }
{
    let row = l.row;
    let lead = l.lead;
    let at = r * row;
    let to = m * row;
    let next = lead + from / 32 + 1;
    let k = next_common(&est[at..at + row], &masks[to..to + row], next);
    if k < row {
        return 32 * (k - lead) + u32::trailing_zeros(est[at + k] & masks[to + k]) as usize;
    }
    l.size
}

// The first thing from `from` on that the row r and the mask m have; the size of the table or more where there is none.
pub fn next_thing(est: &[u32], masks: &[u32], l: Layout, r: usize, m: usize, from: usize) -> usize
    requires { Searched l est.now masks.now r m × (from ≤ l.size) }
    ensures { Next est.now masks.now l.lead (r * l.row) (m * l.row) l.size from result }
{
    if l.size <= from {
        return from;
    }
    let bits = common_from(est, masks, l.lead, r * l.row, m * l.row, from);
    if bits != 0 {
        return from + u32::trailing_zeros(bits) as usize;
    }
    later_thing(est, masks, l, r, m, from)
}

// Whether the row r and the mask m have the thing f.
pub fn has_thing(est: &[u32], masks: &[u32], l: Layout, r: usize, m: usize, f: usize) -> bool
    requires { Searched l est.now masks.now r m × (f < l.size) }
    ensures { result ≡ both est.now masks.now l.lead (r * l.row) (m * l.row) f }
{
    common_from(est, masks, l.lead, r * l.row, m * l.row, f) % 2 == 1
}

// Whether a send at x with so much required, from a sender with these permissions, starts the block at b for a name in C(x + 1), the message aside.
pub fn starts(
    words: &[u32],
    est: &[u32],
    l: Layout,
    x: usize,
    required: PermSet,
    sender: PermSet,
    b: usize,
) -> bool
    requires { (b < length words.now) × Sized l est.now × (x + 1 < l.size) × (32 + argument (get_or words.now b 0) < 32 * l.lead) }
    ensures { (c : Code) → LaidOut c l → result ≡ starts_at c words.now est.now x required.bits sender.bits b }
{
    let name = argument_of(words[b]);
    has(est, l, 2 * (x + 1), 32 + name as usize)
        && judge(name, required, sender, handler_at(words, b)).delivered()
}
