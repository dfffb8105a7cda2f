// A link in one word: 11 bits for the end, 10 for the binder and 10 for the block.
ghost use Rattle.std.specs.Prelude.{◌≡◌};
ghost use Rattle.table.specs.Links.{pack as packed, unpack};

use crate::Link;

// How many ends there are, and how many binders and blocks.
const ENDS: usize = 2048;

const PLACES: usize = 1024;

impl Link {
    // A link in one word. No `From`, since a place that is too large loses bits.
    #[tactic(auto, unfolding(crate::specs::Links::pack))]
    pub fn pack(self) -> u32
        ensures { result ≡ packed self }
    {
        let end = self.end % ENDS;
        let binder = self.binder % PLACES;
        let home = self.home % PLACES;
        (end + ENDS * (binder + PLACES * home)) as u32
    }

    #[tactic(auto, unfolding(crate::specs::Links::unpack))]
    pub fn unpack(x: u32) -> Link
        ensures { result ≡ unpack x }
    {
        let all = x as usize;
        Link {
            end: all % ENDS,
            binder: all / ENDS % PLACES,
            home: all / (ENDS * PLACES) % PLACES,
        }
    }
}
