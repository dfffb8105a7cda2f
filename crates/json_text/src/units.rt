// The units of strings, compared. A place is behind the first quotation mark of a string, or one of its characters.
ghost use Rattle.std.specs.Prelude.{◌≡◌, true, false, ◌<◌, ◌^◌, drop};
ghost use Rattle.json_text.specs.Strings.{units};
ghost use Rattle.json_text.specs.Units.{matches, contains, spread, left, uncons};

use crate::Character;
use crate::strings::character;

// Where the next unit of a string stands: at a place, behind the second unit of a pair, if that is held back.
#[derive(Clone, Copy)]
struct Cursor {
    held: Option<u32>,
    at: usize,
}

// A unit, and where the ones behind it start.
#[derive(Clone, Copy)]
struct Next {
    unit: u32,
    behind: Cursor,
}

impl Cursor {
    fn new(at: usize) -> Cursor
        ensures { result ≡ record { held = None; at = at } }
    {
        Cursor { held: None, at }
    }

    // The next unit, if there is one.
    fn next(self, text: &[u8]) -> Option<Next>
        ensures { left text.now self ≡ uncons text.now result }
    {
        if let Some(unit) = self.held {
            return Some(Next {
                unit,
                behind: Cursor::new(self.at),
            });
        }
        match character(text, self.at)? {
            Character::One(unit, at) => Some(Next {
                unit,
                behind: Cursor::new(at),
            }),
            Character::Two(unit, low, at) => Some(Next {
                unit,
                behind: Cursor {
                    held: Some(low),
                    at,
                },
            }),
            Character::Ends(_) => None,
        }
    }

    // Whether a word stands here; as the whole of what is left, or with more behind it.
    fn matches(self, text: &[u8], word: &[u8], whole: bool) -> bool
        ensures { result ≡ matches whole word.now (left text.now self) }
    {
        let mut cursor = self;
        for b in word {
            let Some(next) = cursor.next(text) else {
                return false;
            };
            if next.unit != *b as u32 {
                return false;
            }
            cursor = next.behind;
        }
        !whole || cursor.next(text).is_none()
    }
}

// Whether the string at a place is this word.
pub fn spells(text: &[u8], at: usize, word: &[u8]) -> bool
    ensures { result ≡ matches true word.now (units (drop at text.now)) }
{
    Cursor::new(at).matches(text, word, true)
}

// Whether the string at a place has this word in it.
pub fn contains(text: &[u8], at: usize, word: &[u8]) -> bool
    ensures { result ≡ contains word.now (units (drop at text.now)) }
{
    let mut cursor = Cursor::new(at);
    loop {
        if cursor.matches(text, word, false) {
            return true;
        }
        let Some(next) = cursor.next(text) else {
            return false;
        };
        cursor = next.behind;
    }
}

// Whether the strings at two places are the same.
pub fn same(text: &[u8], at: usize, other: usize) -> bool
    ensures { result ≡ matches true (units (drop at text.now)) (units (drop other text.now)) }
{
    let mut one = Cursor::new(at);
    let mut two = Cursor::new(other);
    while let Some(next) = one.next(text) {
        let Some(against) = two.next(text) else {
            return false;
        };
        if against.unit != next.unit {
            return false;
        }
        one = next.behind;
        two = against.behind;
    }
    two.next(text).is_none()
}

// A number for the string at a place, the same for the same strings.
pub fn hash(text: &[u8], at: usize) -> usize
    ensures { (result ≡ spread 0 (units (drop at text.now))) × (result < 2 ^ 18) }
{
    let mut number = 0;
    let mut cursor = Cursor::new(at);
    while let Some(next) = cursor.next(text) {
        number = (number * 31337 + (next.unit % 65536) as usize) % 262144;
        cursor = next.behind;
    }
    number
}
