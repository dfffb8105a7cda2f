// An order of reading: a system's live blocks so that each follows all that may send to it, or else a loop of them.
#![tactic(auto)]

mod firsts;
mod relation;

ghost use Rattle.std.specs.Prelude.{◌≡◌, ◌≤◌, length, take};
ghost use Rattle.table.specs.Scan.{accepted, reading};
ghost use Rattle.table.specs.Code.{code};
ghost use Rattle.calculus.specs.Layout.{estimate_words};
ghost use Rattle.calculus.specs.Answer.{standing_bound};
ghost use Rattle.calls.specs.Calls.{Fits};
ghost use Rattle.reading_order.specs.Reply.{reply_of, reply, ReplyMeans};
ghost use Rattle.reading_order.specs.Reply.{estimate_after_order, work_after_order, positions_after};
ghost use Rattle.reading_order.specs.declared.OrderFault.TheVariants.{Call};
ghost use Rattle.reading_order.specs.Faults.{order_fault};
ghost use Rattle.reading_order.specs.Parts.{ArrangedBy, OrderedIn};

use calls::checks::{check, words_needed};
use calls::{Fault, LimitFault};
pub use graph::Arrangement;
use permset::PermSet;
use rows::layout::Layout;
use solver::analyse::find_within;

// Why a call is refused: by document 01, with too few positions, or since the least estimate has more facts than the ceiling, which stands beside.
// `reply_of` of specs/Reply.antt gives each its number and place.
#[derive(Clone, Copy)]
pub enum OrderFault {
    Call(Fault),
    Short,
    Facts(usize),
}

impl From<Fault> for OrderFault {
    ghost from_gives = { λ f o. o ≡ Call f };

    fn from(f: Fault) -> OrderFault {
        OrderFault::Call(f)
    }
}

impl From<LimitFault> for OrderFault {
    ghost from_gives = { λ l o. o ≡ order_fault l };

    fn from(l: LimitFault) -> OrderFault {
        match l {
            LimitFault::Call(f) => OrderFault::Call(f),
            LimitFault::Facts(n) => OrderFault::Facts(n),
        }
    }
}

// The order or loop of the blocks with these first words, by the words of an estimate.
fn arranged(
    words: &[u32],
    est: &[u32],
    blocks: &[u32],
    positions: &mut [u32],
) -> Option<Arrangement>
    requires { (reading words.now ≡ accepted) × (length est.now ≡ estimate_words (code words.now)) × (blocks.now ≡ (code words.now).blocks) }
    ensures { ArrangedBy (code words.now) est.now positions.old positions.new result }
{
    let l = Layout::of(words);
    let live = relation::live_among(est, l, blocks);
    let mut rows = [0u64; 64];
    relation::fill_rows(est, l, blocks, &mut rows);
    let n = blocks.len();
    graph::arrange(&rows[..n], live, positions)
}

// The order or loop by the estimate in the first words of a slice.
fn arranged_in(
    words: &[u32],
    est: &[u32],
    blocks: &[u32],
    positions: &mut [u32],
) -> Option<Arrangement>
    requires { (reading words.now ≡ accepted) × (estimate_words (code words.now) ≤ length est.now) × (blocks.now ≡ (code words.now).blocks) }
    ensures { ArrangedBy (code words.now) (take (estimate_words (code words.now)) est.now)
        positions.old positions.new result }
{
    let need = words_needed(words);
    arranged(words, &est[..need], blocks, positions)
}

// The call where nothing is wrong with it and the blocks are known.
fn solved(
    words: &[u32],
    rho: u32,
    ceiling: usize,
    est: &mut [u32],
    work: &mut [u32],
    blocks: &[u32],
    positions: &mut [u32],
) -> Result<Arrangement, OrderFault>
    requires fits { Fits words.now rho standing_bound (length est.old) (length work.old) }
    requires blocks_value { (blocks.now ≡ (code words.now).blocks) × (length blocks.now ≤ length positions.old) }
    ensures { OrderedIn words.now rho ceiling est.old work.old positions.old
        est.new work.new positions.new result }
{
    find_within(words, PermSet { bits: rho }, ceiling, est, work)?;
    arranged_in(words, est, blocks, positions).ok_or(OrderFault::Short)
}

// The call where document 01 finds nothing wrong with it.
fn checked(
    words: &[u32],
    rho: u32,
    ceiling: usize,
    est: &mut [u32],
    work: &mut [u32],
    positions: &mut [u32],
) -> Result<Arrangement, OrderFault>
    requires { Fits words.now rho standing_bound (length est.old) (length work.old) }
    ensures { OrderedIn words.now rho ceiling est.old work.old positions.old
        est.new work.new positions.new result }
{
    let mut blocks = [0u32; 64];
    let n = firsts::list_firsts(words, &mut blocks);
    if positions.len() < n {
        return Err(OrderFault::Short);
    }
    solved(words, rho, ceiling, est, work, &blocks[..n], positions)
}

// An order of the live blocks of a table in which each follows all that may send to it, the lowest position first among those free, from the start of
// `positions`; where there is none, the first of their shortest loops. The opponent holds rho, and the least estimate may have so many facts.
pub fn order(
    words: &[u32],
    rho: u32,
    ceiling: usize,
    est: &mut [u32],
    work: &mut [u32],
    positions: &mut [u32],
) -> Result<Arrangement, OrderFault>
    ensures answer { reply_of result
        ≡ reply words.now rho ceiling (length est.old) (length work.old) (length positions.old) }
    ensures estimate { est.new
        ≡ estimate_after_order words.now rho ceiling est.old work.old positions.old }
    ensures work { work.new
        ≡ work_after_order words.now rho est.old work.old positions.old }
    ensures positions { positions.new
        ≡ positions_after words.now rho ceiling est.old work.old positions.old }
    ensures meaning { ReplyMeans words.now rho (reply_of result) positions.new }
{
    check(words, rho, 0x80000000, est.len(), work.len())?;
    checked(words, rho, ceiling, est, work, positions)
}
