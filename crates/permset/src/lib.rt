// A set of permissions as a value.
#![tactic(auto)]

ghost use Rattle.std.specs.Prelude.{◌≡◌, ◌^◌, eqb, ltb};
ghost use Rattle.permset.specs.Sets.{width, member, union, difference, within, lowest};

#[derive(Clone, Copy, PartialEq, Eq)]
pub struct PermSet {
    pub bits: u32,
}

impl PermSet {
    pub fn empty() -> PermSet
        ensures { result ≡ record { bits = 0 } }
    {
        PermSet { bits: 0 }
    }

    pub fn of(bits: u32) -> PermSet
        ensures { result ≡ record { bits = bits } }
    {
        PermSet { bits }
    }

    #[tactic(auto, unfolding(crate::specs::Sets::union))]
    pub fn union(self, other: PermSet) -> PermSet
        ensures { result ≡ record { bits = union self.bits other.bits } }
    {
        PermSet {
            bits: self.bits | other.bits,
        }
    }

    // What is in self and not in other.
    pub fn difference(self, other: PermSet) -> PermSet
        ensures { result ≡ record { bits = difference self.bits other.bits } }
    {
        let both = self.bits & other.bits;
        PermSet {
            bits: self.bits - both,
        }
    }

    // Whether every member of self is in other.
    #[tactic(auto, unfolding(crate::specs::Sets::within))]
    pub fn within(self, other: PermSet) -> bool
        ensures { result ≡ within self.bits other.bits }
    {
        self.bits & other.bits == self.bits
    }

    pub fn has(self, i: u32) -> bool
        ensures { result ≡ member self.bits i }
    {
        i < 32 && (self.bits >> i) % 2 == 1
    }

    // The lowest member, and 32 where there is none, as `trailing_zeros` has it. No Option: who asks has a member, and takes the number.
    pub fn lowest(self) -> u32
        ensures { result ≡ lowest self.bits }
    {
        u32::trailing_zeros(self.bits)
    }

    pub fn is_empty(self) -> bool
        ensures { result ≡ eqb self.bits 0 }
    {
        self.bits == 0
    }

    // Whether no bit stands above the permissions.
    pub fn valid(self) -> bool
        ensures { result ≡ ltb self.bits (2 ^ width) }
    {
        self.bits < 16777216
    }
}
