// The flow rules as data: clause k of the word p says under which condition the rule of p asks something of an estimate, and what.
#![tactic(auto)]

pub mod elements;
pub mod make;
pub mod masks;

// Under which condition: never, always, or by what C(a) and C(d) have.
#[derive(Clone, Copy)]
pub enum Test {
    Never,
    Free,
    // C(a) has the element v.
    Has,
    // C(a) has something of the mask v.
    Some,
    // C(d) has a string; and C(a) the element v; and C(a) something of the mask v.
    Text,
    TextHas,
    TextSome,
}

#[derive(Clone, Copy)]
pub struct Guard {
    pub test: Test,
    pub d: usize,
    pub a: usize,
    pub v: usize,
}

// What has to be in an estimate. Rows go by their numbers: 2p is C(p) and 2p + 1 is B(p).
#[derive(Clone, Copy)]
pub enum What {
    // x is live.
    Live,
    // The row x has the element y.
    Put,
    // The row x has all plain elements.
    Fill,
    // The row x is in the row y.
    Flow,
    // What the row x has of the mask z is in the row y.
    Pass,
    // P(x) has the permissions y.
    Permit,
    // C(x) has the results of the operation z on C(x + 1) and C(y).
    Operate,
    // y is live, and P(y) is in P(x).
    Part,
    // x + 1, y and z are live, and their P is in P(x); y and z may be 0, which is no part.
    Parts,
    // x + 1 is live, and its P and that of y and z is in P(x); z may be 0, which is no part.
    Branches,
    // For each thing f of the mask z in C(x + 1): f + 1 is live; P(f + 1) is in P(x); the row y is in B(f); B(f) is in the row y; C(f + 1) is in the row y.
    Enter,
    Lower,
    Hand,
    Take,
    Back,
    // For each block f that a send at x, with z required, may start for a name in C(x + 1): f is live, what C(y) has of messages
    // is in B(f), P(f) is in P(x), and C(f) has the block of x.
    Send,
}

#[derive(Clone, Copy)]
pub struct Effect {
    pub what: What,
    pub x: usize,
    pub y: usize,
    pub z: usize,
}

#[derive(Clone, Copy)]
pub struct Clause {
    pub guard: Guard,
    pub effect: Effect,
}
