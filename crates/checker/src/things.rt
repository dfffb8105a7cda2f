// What a term asks for each thing in the value set of its first part.
ghost use Rattle.std.specs.Prelude.{◌≡◌, ◌+◌, ◌*◌, ◌<◌};
ghost use Rattle.calculus.specs.Constraint.{C};
ghost use Rattle.calculus.specs.Rules.{each_made};
ghost use Rattle.clauses.specs.Asks.{thing_at};
ghost use Rattle.checker.specs.Things.{asked, Suits};
ghost use Rattle.checker.specs.Viewed.{Tested, TestedBy, Sorted};
ghost use Rattle.checker.specs.declared.things.Action.TheVariants as actions;

use crate::view::View;
use queries::next_thing;

// Apply; a thing's held set goes into a row; a row goes into it.
#[derive(Clone, Copy)]
pub enum Action {
    Call,
    Take,
    Hand,
}

impl View<'_> {
    // What is asked for the thing f; of a function that its body is live, the row y is in B(f), and what the body gives is in C(p) and P(p).
    fn thing(&self, action: Action, p: usize, y: usize, f: usize) -> bool
        requires { (p < self.now.layout.size) × (y < 2 * self.now.layout.size) × (f < self.now.layout.size) × (action ≡ actions.Call → f + 1 < self.now.layout.size) }
        ensures { Tested self.now (λ c. asked action p y f) result }
    {
        match action {
            Action::Call => {
                self.is_live(f + 1)
                    & (self.passed(y, 2 * f + 1)
                        & (self.passed(2 * (f + 1), 2 * p) & self.lifted(f + 1, p)))
            }
            Action::Take => self.passed(2 * f + 1, y),
            Action::Hand => self.passed(y, 2 * f + 1),
        }
    }

    // What is asked for each thing of the mask m in C(p + 1).
    pub fn things(&self, action: Action, m: usize, p: usize, y: usize) -> bool
        requires { (p + 1 < self.now.layout.size) × (y < 2 * self.now.layout.size) × Sorted self.now × Suits action m }
        ensures { TestedBy self.now (λ c. each_made c (thing_at m) (C (p + 1)) (asked action p y)) result }
    {
        let size = self.layout.size;
        let mut f = next_thing(self.estimate, self.masks, self.layout, 2 * (p + 1), m, 0);
        // A `while`: the next thing is searched from the one before, which no range or iterator says as plainly.
        while f < size {
            if !self.thing(action, p, y, f) {
                return false;
            }
            f = next_thing(
                self.estimate,
                self.masks,
                self.layout,
                2 * (p + 1),
                m,
                f + 1,
            );
        }
        true
    }
}
