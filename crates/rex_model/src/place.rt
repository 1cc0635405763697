// A place in a text: line, column and byte.
ghost use Rattle.std.specs.Prelude.{◌≡◌, ℕ, ◌+◌, ◌^◌, ◌<◌, ◌≤◌, List, length, Some, slice_get};
ghost use Rattle.rex_model.specs.Place.{IsPlace};

/// A place in a text: the number of bytes before it, and its line and column, which count from 1.
/// Columns count bytes.
#[derive(Clone, Copy)]
pub struct Place {
    pub at: usize,
    pub line: u32,
    pub col: u32,
}

impl Place {
    /// The beginning of every text.
    pub const START: Place = Place {
        at: 0,
        line: 1,
        col: 1,
    };

    /// The place `to` of the text. It goes on from this one, or anew where this one is behind it.
    pub fn go_to(self, text: &[u8], to: usize) -> Place
        requires is_place { IsPlace text.now self }
        requires small { length text.now + 1 < 2 ^ 32 }
        requires within { to ≤ length text.now }
        ensures at { result.at ≡ to }
        ensures is_place { IsPlace text.now result }
    {
        let mut place = self.not_behind(to);
        while place.at < to {
            place = place.after(text[place.at]);
        }
        place
    }

    /// This place, or the beginning where this one is behind `to`.
    fn not_behind(self, to: usize) -> Place
        ensures at { result.at ≤ to }
        ensures is_place { (text : List ℕ) → IsPlace text self → IsPlace text result }
    {
        if to < self.at { Place::START } else { self }
    }

    /// The place after this byte, which stands here.
    fn after(self, byte: u8) -> Place
        requires at { self.at + 1 < 2 ^ 64 }
        requires line { self.line + 1 < 2 ^ 32 }
        requires column { self.col + 1 < 2 ^ 32 }
        ensures at { result.at ≡ self.at + 1 }
        ensures is_place { (text : List ℕ) → slice_get text self.at ≡ Some byte
            → IsPlace text self → IsPlace text result }
    {
        let at = self.at + 1;
        if byte == b'\n' {
            Place {
                at,
                line: self.line + 1,
                col: 1,
            }
        } else {
            Place {
                at,
                line: self.line,
                col: self.col + 1,
            }
        }
    }
}
