//! What is asked of marks and done with them. Days count from 1.
ghost use Rattle.std.specs.Prelude.{◌≡◌, ◌/◌, ◌%◌, ◌^◌, ◌<◌, ◌≤◌, [], ◌∷◌, ◌++◌, length, take};
ghost use Rattle.forms.specs.Calendar.{year_days};
ghost use Rattle.stage.specs.Marked.{marks_of, on_day};

use crate::marks::Marks;

/// Where the mark of a day stands that `before` days come before: its word, and its bit in that word.
fn place(before: u16) -> (usize, u64)
    ensures word { result.0 ≡ before / 64 }
    ensures bit { result.1 ≡ 2 ^ (before % 64) }
{
    (usize::from(before / 64), 1 << (before % 64))
}

impl Marks {
    /// The marks before the first day.
    pub fn none() -> Marks
        ensures { marks_of result ≡ [] }
    {
        Marks {
            words: [0; 6],
            days: 0,
        }
    }

    /// How many days there are marks of.
    pub(crate) fn days(&self) -> u16
        ensures count { result ≡ length (marks_of self.now) }
        ensures year { result ≤ year_days }
    {
        self.days
    }

    /// Adds the mark of the next day, up to the last of the year.
    pub fn push(&mut self, mark: bool)
        requires { length (marks_of self.old) < year_days }
        ensures { marks_of self.new ≡ marks_of self.old ++ mark ∷ [] }
    {
        let (word, bit) = place(self.days);
        let mut words = self.words;
        let earlier = words[word] & (bit - 1);
        words[word] = if mark { earlier | bit } else { earlier };
        *self = Marks {
            words,
            days: self.days + 1,
        };
    }

    /// Whether the day is marked. Day 0 and a day past the last are not.
    pub fn marked(&self, day: u16) -> bool
        ensures { result ≡ on_day (marks_of self.now) day }
    {
        if day == 0 || day > self.days {
            return false;
        }
        let (word, bit) = place(day - 1);
        self.words[word] & bit != 0
    }

    /// The marks up to that day, or all if there are fewer.
    pub fn first(&self, day: u16) -> Marks
        ensures { marks_of result ≡ take day (marks_of self.now) }
    {
        Marks {
            words: self.words,
            days: self.days.min(day),
        }
    }
}
