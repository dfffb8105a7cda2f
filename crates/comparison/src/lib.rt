// A leak compared with a bound: what a verdict is, and what it says of what was found.
#![tactic(auto)]

ghost use Rattle.std.specs.Prelude.{◌≡◌, Ok};
ghost use Rattle.calculus.specs.Answer.{bound_used};
ghost use Rattle.comparison.specs.Values.{answer_of, compare};

use permset::PermSet;

// What was found of an accepted system: its leak, the bound that it is compared with, and the number of facts.
#[derive(Clone, Copy)]
pub struct Report {
    pub leak: PermSet,
    pub bound: PermSet,
    pub facts: usize,
}

// The leak within the bound, or over it with the lowest permission outside. `answer_of` of specs/Values.antt gives each its values.
#[derive(Clone, Copy)]
pub enum Verdict {
    Within(Report),
    Over(Report, u32),
}

// What was found of an accepted system: its leak, and the number of facts.
#[derive(Clone, Copy)]
pub struct Findings {
    pub leak: PermSet,
    pub facts: usize,
}

// The bound that a leak is compared with: 80000000 hex means the empty set.
pub fn bound_used(bound: u32) -> PermSet
    ensures { result.bits ≡ bound_used bound }
{
    if bound == 0x80000000 {
        PermSet { bits: 0 }
    } else {
        PermSet { bits: bound }
    }
}

// What was found, compared with a bound.
pub fn compared(found: Findings, bound: PermSet) -> Verdict
    ensures { answer_of (Ok result) ≡ compare found.leak.bits bound.bits found.facts }
{
    let leak = found.leak;
    let facts = found.facts;
    let report = Report { leak, bound, facts };
    if leak.within(bound) {
        return Verdict::Within(report);
    }
    let outside = leak.difference(bound);
    Verdict::Over(report, outside.lowest())
}
