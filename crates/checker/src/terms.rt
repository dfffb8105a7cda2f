// What a term at p asks where it is live, by its kind: its first part is at p + 1, its second at d, its third at e.
ghost use Rattle.std.specs.Prelude.{◌≡◌, ◌+◌, ◌*◌, ◌^◌, ◌<◌};
ghost use Rattle.permset.specs.Sets.{width};
ghost use Rattle.table.specs.Code.{cell as Cell, read as Read, exercise as Exercise, one, two, bind as Bind, while, branch as Branch, update as Update};
ghost use Rattle.table.specs.Code.{apply as Apply, sequence as Sequence, get as Get, delete as Delete, assign as Assign, operation as Op};
ghost use Rattle.calculus.specs.Constraint.{◌and◌};
ghost use Rattle.calculus.specs.Rules.{part as Part, permissions, leaf_rule, flow};
ghost use Rattle.checker.specs.Viewed.{Tested, TestedIf, TestedBy, Sorted};

use crate::things::Action;
use crate::view::View;
use clauses::elements::{FALSEHOOD, OPPONENT_RECORD, TRUTH, UNDEFINED, UNIT};
use clauses::masks::{CELLS, FUNCTIONS, RECORDS};
use permset::PermSet;
use queries::{has_some, has_text};
use results::operate_at;
use table::Operation;

impl View<'_> {
    // Both parts are live, and their permissions are in P(p).
    pub fn parts(&self, p: usize, d: usize) -> bool
        requires { (p + 1 < self.now.layout.size) × (d < self.now.layout.size) }
        ensures { Tested self.now (λ c. Part p (p + 1) and Part p d) result }
    {
        self.part(p, p + 1) & self.part(p, d)
    }

    pub fn exercise(&self, p: usize, set: PermSet, own: PermSet) -> bool
        requires { (p < self.now.layout.size) × (set.bits < 2 ^ width) }
        ensures { TestedIf self.now (λ c. own.bits ≡ permissions c p) (λ c. leaf_rule c p (Exercise set.bits)) result }
    {
        if !set.within(own) {
            return true;
        }
        let at = self.layout.flags(p);
        set.within(PermSet::of(self.estimate[at])) & self.in_value(p, UNIT)
    }

    pub fn apply(&self, p: usize, d: usize) -> bool
        requires { (p + 1 < self.now.layout.size) × (d < self.now.layout.size) × Sorted self.now }
        ensures { TestedBy self.now (λ c. flow c p (two Apply (p + 1) d)) result }
    {
        self.parts(p, d) & self.things(Action::Call, FUNCTIONS, p, 2 * d)
    }

    pub fn bind(&self, p: usize, d: usize) -> bool
        requires { (p + 1 < self.now.layout.size) × (d < self.now.layout.size) }
        ensures { Tested self.now (λ c. flow c p (Bind (p + 1) d)) result }
    {
        self.parts(p, d) & (self.passed(2 * (p + 1), 2 * p + 1) & self.passed(2 * d, 2 * p))
    }

    pub fn sequence(&self, p: usize, d: usize) -> bool
        requires { (p + 1 < self.now.layout.size) × (d < self.now.layout.size) }
        ensures { Tested self.now (λ c. flow c p (two Sequence (p + 1) d)) result }
    {
        self.parts(p, d) & self.passed(2 * d, 2 * p)
    }

    pub fn branch(&self, p: usize, d: usize, e: usize) -> bool
        requires { (p + 1 < self.now.layout.size) × (d < self.now.layout.size) × (e < self.now.layout.size) }
        ensures { Tested self.now (λ c. flow c p (Branch (p + 1) d e)) result }
    {
        self.part(p, p + 1)
            & (self.lifted(d, p)
                & (self.lifted(e, p)
                    & (self.wakes(p + 1, TRUTH, d)
                        & (self.wakes(p + 1, FALSEHOOD, e)
                            & (self.passed(2 * d, 2 * p) & self.passed(2 * e, 2 * p))))))
    }

    pub fn repeat(&self, p: usize, d: usize) -> bool
        requires { (p + 1 < self.now.layout.size) × (d < self.now.layout.size) }
        ensures { Tested self.now (λ c. flow c p (while (p + 1) d)) result }
    {
        self.part(p, p + 1)
            & (self.lifted(d, p)
                & (self.wakes(p + 1, TRUTH, d)
                    & (!self.in_value(p + 1, FALSEHOOD) | self.in_value(p, UNDEFINED))))
    }

    // The results of the operation on C(p + 1) and C(d) are in C(p).
    pub fn operation(&self, p: usize, d: usize, o: Operation) -> bool
        requires { (p + 1 < self.now.layout.size) × (d < self.now.layout.size) }
        ensures { Tested self.now (λ c. flow c p (two (Op o) (p + 1) d)) result }
    {
        let whole = self.parts(p, d);
        let to = 2 * p * self.layout.row;
        let results = operate_at(
            self.estimate,
            self.layout.lead,
            o,
            2 * (p + 1) * self.layout.row,
            2 * d * self.layout.row,
        );
        whole & PermSet::of(results).within(PermSet::of(self.estimate[to]))
    }

    // Where C(d) has a string: for 7 all plain elements, where C(p + 1) has a record undefined, and what each record holds is in C(p).
    pub fn get(&self, p: usize, d: usize) -> bool
        requires { (p + 1 < self.now.layout.size) × (d < self.now.layout.size) × Sorted self.now }
        ensures { TestedBy self.now (λ c. flow c p (two Get (p + 1) d)) result }
    {
        let whole = self.parts(p, d);
        if !has_text(self.estimate, self.layout, 2 * d) {
            return whole;
        }
        let filled = self.fills(p + 1, OPPONENT_RECORD, 2 * p);
        if !has_some(self.estimate, self.masks, self.layout, 2 * (p + 1), RECORDS) {
            return whole & filled;
        }
        whole
            & (filled
                & (self.in_value(p, UNDEFINED) & self.things(Action::Take, RECORDS, p, 2 * p)))
    }

    // Where C(d) has a string: for 7 all plain elements are in B(p), and where C(p + 1) has a record or 7 the new record is in C(p), C(e) and what
    // each record holds in B(p).
    pub fn set(&self, p: usize, d: usize, e: usize) -> bool
        requires { (p + 1 < self.now.layout.size) × (d < self.now.layout.size) × (e < self.now.layout.size) × Sorted self.now }
        ensures { TestedBy self.now (λ c. flow c p (Update (p + 1) d e)) result }
    {
        let whole = self.parts(p, d);
        let third = self.part(p, e);
        if !has_text(self.estimate, self.layout, 2 * d) {
            return whole & third;
        }
        let filled = self.fills(p + 1, OPPONENT_RECORD, 2 * p + 1);
        if !has_some(self.estimate, self.masks, self.layout, 2 * (p + 1), RECORDS) {
            return whole & (third & filled);
        }
        whole
            & (third
                & (filled
                    & (self.in_value(p, 32 * self.layout.lead + p)
                        & (self.passed(2 * e, 2 * p + 1)
                            & self.things(Action::Take, RECORDS, p, 2 * p + 1)))))
    }

    // Where C(d) has a string, records and 7 pass to C(p).
    pub fn delete(&self, p: usize, d: usize) -> bool
        requires { (p + 1 < self.now.layout.size) × (d < self.now.layout.size) × Sorted self.now }
        ensures { TestedBy self.now (λ c. flow c p (two Delete (p + 1) d)) result }
    {
        let whole = self.parts(p, d);
        if !has_text(self.estimate, self.layout, 2 * d) {
            return whole;
        }
        whole & self.passed_by(RECORDS, 2 * (p + 1), 2 * p)
    }

    pub fn cell(&self, p: usize) -> bool
        requires { p + 1 < self.now.layout.size }
        ensures { Tested self.now (λ c. flow c p (one Cell (p + 1))) result }
    {
        self.part(p, p + 1)
            & (self.in_value(p, 32 * self.layout.lead + p) & self.passed(2 * (p + 1), 2 * p + 1))
    }

    pub fn read(&self, p: usize) -> bool
        requires { (p + 1 < self.now.layout.size) × Sorted self.now }
        ensures { TestedBy self.now (λ c. flow c p (one Read (p + 1))) result }
    {
        self.part(p, p + 1) & self.things(Action::Take, CELLS, p, 2 * p)
    }

    pub fn assign(&self, p: usize, d: usize) -> bool
        requires { (p + 1 < self.now.layout.size) × (d < self.now.layout.size) × Sorted self.now }
        ensures { TestedBy self.now (λ c. flow c p (two Assign (p + 1) d)) result }
    {
        self.parts(p, d)
            & ((!has_some(self.estimate, self.masks, self.layout, 2 * (p + 1), CELLS)
                | self.passed(2 * d, 2 * p))
                & self.things(Action::Hand, CELLS, p, 2 * d))
    }
}
