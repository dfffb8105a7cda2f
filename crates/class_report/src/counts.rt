// The counts of the systems read so far.
ghost use Rattle.std.specs.Prelude.{◌≡◌};
ghost use Rattle.class_report.specs.Tally.{fresh, position as Tally·position};
ghost use Rattle.class_report.specs.Tally.{raised as Tally·raised, counted as Tally·counted, tallied as Tally·tallied};

use crate::{Outcome, PERMISSIONS, Tally};
use permset::PermSet;

// Before the first system.
pub fn empty_tally() -> Tally
    ensures { result ≡ fresh }
{
    Tally {
        accepted: 0,
        refused: 0,
        leaks: [0; PERMISSIONS],
    }
}

// The position of the next system.
pub fn position(tally: Tally) -> usize
    ensures { result ≡ Tally·position tally }
{
    tally.accepted as usize + tally.refused as usize
}

// One more where it is asked for, up to the most systems of a stream.
fn raised(more: bool, n: u32) -> u32
    ensures { result ≡ Tally·raised more n }
{
    if more {
        if n < 10000 { n + 1 } else { 10000 }
    } else {
        n
    }
}

// The counts with one more for each permission of the set.
fn counted(leaks: [u32; PERMISSIONS], leak: PermSet) -> [u32; PERMISSIONS]
    ensures { result ≡ Tally·counted 0 leak.bits leaks }
{
    let mut next = leaks;
    for i in 0..PERMISSIONS {
        next[i] = raised(leak.has(i as u32), next[i]);
    }
    next
}

// One system more.
pub fn tallied(tally: Tally, outcome: Outcome) -> Tally
    ensures { result ≡ Tally·tallied tally outcome }
{
    let before = tally.leaks;
    match outcome {
        Ok(s) => {
            let leaks = counted(before, s);
            Tally {
                accepted: raised(true, tally.accepted),
                refused: tally.refused,
                leaks,
            }
        }
        Err(_) => Tally {
            accepted: tally.accepted,
            refused: raised(true, tally.refused),
            leaks: before,
        },
    }
}
