// The least estimate in a lent slice.
ghost use Rattle.std.specs.Prelude.{◌≡◌, ◌*◌, ◌≤◌, length, replicate};
ghost use Rattle.table.specs.Scan.{accepted, reading};
ghost use Rattle.table.specs.Code.{code};
ghost use Rattle.table.specs.Links.{LinksOf};
ghost use Rattle.calculus.specs.Layout.{estimate_words, WellFormed};
ghost use Rattle.calculus.specs.Estimate.{leak as estimateLeak};
ghost use Rattle.rows.specs.Laid.{LaidOut};
ghost use Rattle.readers.specs.Reading.{Readable};
ghost use Rattle.fixpoint.specs.Grown.{Closed};
ghost use Rattle.solver.specs.Ceiling.{cleared_over, Counted};

use comparison::Findings;
use fixpoint::room::run;
use masks::fill_masks;
use permset::PermSet;
use rows::layout::Layout;
use table_links::link;

// The rules are obeyed, with masks of its own, unless more than `ceiling` facts are added. It answers how many were.
fn fill(
    words: &[u32],
    links: &[u32],
    est: &mut [u32],
    l: Layout,
    rho: PermSet,
    ceiling: usize,
) -> usize
    requires { Readable words.now links.now est.old l × WellFormed (code words.now) est.old }
    ensures { Closed (code words.now) rho.bits ceiling est.old est.new result }
{
    let mut masks = [0u32; 144];
    fill_masks(words, &mut masks, l);
    run(words, links, &masks, est, l, rho, ceiling)
}

// Zeros, where there are more facts than the ceiling.
fn clear_over(area: &mut [u32], facts: usize, ceiling: usize)
    ensures { area.new ≡ cleared_over facts ceiling area.old }
{
    if ceiling < facts {
        area.fill(0);
    }
}

// The least estimate, or zeros where it has more than `ceiling` facts, and the links of the words. It answers how many facts were added.
fn least(
    words: &[u32],
    links: &mut [u32],
    est: &mut [u32],
    l: Layout,
    rho: PermSet,
    ceiling: usize,
) -> usize
    requires words_value { (reading words.now ≡ accepted) × LaidOut (code words.now) l }
    requires est_len { (length est.old ≡ estimate_words (code words.now)) × (length words.now ≤ length links.old) }
    ensures { Counted (code words.now) rho.bits ceiling est.new result × LinksOf words.now links.new }
{
    est.fill(0);
    link(words, links);
    let added = fill(words, links, est, l, rho, ceiling);
    clear_over(est, added, ceiling);
    added
}

// The least estimate of an accepted table in `est` with its leak, or zeros where it has more than `ceiling` facts; zeros in `work`. It answers
// how many facts were added.
pub fn solve(
    words: &[u32],
    rho: PermSet,
    ceiling: usize,
    est: &mut [u32],
    work: &mut [u32],
) -> Findings
    requires words_value { reading words.now ≡ accepted }
    requires est_len { length est.old ≡ estimate_words (code words.now) }
    requires work_len { length work.old ≡ 4 * length words.now }
    ensures counted { Counted (code words.now) rho.bits ceiling est.new result.facts }
    ensures cleared { work.new ≡ replicate (4 * length words.now) 0 }
    ensures leaks { result.leak.bits ≡ estimateLeak (code words.now) rho.bits est.new }
{
    let l = Layout::of(words);
    let facts = least(words, work, est, l, rho, ceiling);
    let leak = readers::leak(words, work, est, l, rho);
    work.fill(0);
    Findings { leak, facts }
}
