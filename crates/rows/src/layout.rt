// Where the rows and words of an estimate stand.
ghost use Rattle.std.specs.Prelude.{◌≡◌, ◌+◌, ◌*◌, ◌<◌, ◌≤◌};
ghost use Rattle.table.specs.Code.{code};
ghost use Rattle.rows.specs.Laid.{LaidOut};

use table::names_in;

// The words of the table, the words of a row, and how many of those the plain elements fill.
#[derive(Clone, Copy)]
pub struct Layout {
    pub size: usize,
    pub row: usize,
    pub lead: usize,
}

impl Layout {
    // That of the estimates of a table.
    pub fn of(words: &[u32]) -> Layout
        ensures { LaidOut (code words.now) result }
    {
        let size = words.len();
        let lead = (1 + names_in(words) / 32) as usize;
        Layout {
            size,
            row: (32 * lead + size + 31) / 32,
            lead,
        }
    }

    // The word of P(p) and of p's live flag.
    pub fn flags(self, p: usize) -> usize
        requires { (self.size ≤ 1024) × (self.row < 64) × (p < 1024) }
        ensures { result ≡ 2 * self.size * self.row + p }
    {
        2 * self.size * self.row + p
    }

    // The words of an estimate.
    pub fn words(self) -> usize
        requires { (self.size ≤ 1024) × (self.row < 64) }
        ensures { result ≡ 2 * self.size * self.row + self.size }
    {
        2 * self.size * self.row + self.size
    }
}
