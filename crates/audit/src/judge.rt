// The check of an estimate from elsewhere. Nothing is written to it: links and masks stand in arrays of the check's own.
ghost use Rattle.std.specs.Prelude.{◌≡◌};
ghost use Rattle.table.specs.Scan.{accepted, reading};
ghost use Rattle.table.specs.Code.{code};
ghost use Rattle.calculus.specs.Layout.{WellFormed};
ghost use Rattle.queries.specs.Ready.{Ready};
ghost use Rattle.readers.specs.Reading.{Readable};
ghost use Rattle.stray.specs.Allowed.{Slice};
ghost use Rattle.audit.specs.Audited.{said, ruled as Ruled, swept as Swept, sized as Sized, judged as Judged, audited};
ghost use Rattle.audit.specs.Passes.{Exact};

use crate::AuditFault;
use checker::broken;
use masks::fill_masks;
use permset::PermSet;
use readers::leak;
use rows::layout::Layout;
use stray::search::first_stray;
use table::read::read;
use table_links::link;

// The rules, and then the leak.
fn ruled(
    words: &[u32],
    links: &[u32],
    masks: &[u32],
    est: &[u32],
    l: Layout,
    rho: PermSet,
) -> Result<PermSet, AuditFault>
    requires { Ready words.now links.now masks.now l × Readable words.now links.now est.now l × WellFormed (code words.now) est.now }
    ensures { said result ≡ Ruled (code words.now) rho.bits est.now }
{
    let p = broken(words, links, masks, est, l, rho);
    if p < l.size {
        return Err(AuditFault::Broken(p));
    }
    Ok(leak(words, links, est, l, rho))
}

// The same with masks of its own.
fn with_masks(
    words: &[u32],
    links: &[u32],
    est: &[u32],
    l: Layout,
    rho: PermSet,
) -> Result<PermSet, AuditFault>
    requires { Readable words.now links.now est.now l × WellFormed (code words.now) est.now }
    ensures { said result ≡ Ruled (code words.now) rho.bits est.now }
{
    let mut masks = [0u32; 144];
    fill_masks(words, &mut masks, l);
    ruled(words, links, &masks, est, l, rho)
}

// The same with links of its own.
fn with_links(words: &[u32], est: &[u32], l: Layout, rho: PermSet) -> Result<PermSet, AuditFault>
    requires { Slice words.now est.now l × WellFormed (code words.now) est.now }
    ensures { said result ≡ Ruled (code words.now) rho.bits est.now }
{
    let mut links = [0u32; 1024];
    link(words, &mut links);
    with_masks(words, &links, est, l, rho)
}

// Stray bits, and then the rules.
fn swept(words: &[u32], est: &[u32], l: Layout, rho: PermSet) -> Result<PermSet, AuditFault>
    requires { Slice words.now est.now l }
    ensures { said result ≡ Swept (code words.now) rho.bits est.now }
{
    let k = first_stray(words, est, l);
    if k < est.len() {
        return Err(AuditFault::Stray(k));
    }
    with_links(words, est, l, rho)
}

// The length of the slice, and then its words.
fn sized(words: &[u32], est: &[u32], rho: PermSet) -> Result<PermSet, AuditFault>
    requires { reading words.now ≡ accepted }
    ensures { said result ≡ Sized (code words.now) rho.bits est.now }
{
    let l = Layout::of(words);
    if est.len() != l.words() {
        return Err(AuditFault::Length);
    }
    swept(words, est, l, rho)
}

// What is said of an estimate of an accepted table.
fn judged(words: &[u32], rho: u32, est: &[u32]) -> Result<PermSet, AuditFault>
    requires { reading words.now ≡ accepted }
    ensures { said result ≡ Judged (code words.now) rho est.now }
{
    if 16777216 <= rho {
        return Err(AuditFault::Rho);
    }
    sized(words, est, PermSet { bits: rho })
}

// What is said of an estimate of a table where the opponent holds rho: yes exactly if it has no stray bit and obeys every rule. Then the leak read
// from it covers every run, and contains that of the least estimate.
pub fn audit(words: &[u32], rho: u32, est: &[u32]) -> Result<PermSet, AuditFault>
    ensures answer { said result ≡ audited words.now rho est.now }
    ensures exact { Exact words.now rho est.now (said result) }
{
    read(words)?;
    judged(words, rho, est)
}
