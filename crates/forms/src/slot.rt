//! What a series is about.
ghost use Rattle.std.specs.Prelude.{◌≡◌, ◌<◌, ◌≤◌};
ghost use Rattle.forms.specs.Bounds.{most_groups};
ghost use Rattle.forms.specs.Slots.{slot_of, slots, slot_number, Within};

use crate::bounds::MOST_GROUPS;

/// A group's series: trades out to another group, trades in from one, or a forecast.
/// Groups count from 0 here; in the bytes of a head they count from 1.
#[derive(Clone, Copy)]
pub enum Slot {
    OutTo(u8),
    InFrom(u8),
    Cons,
    Prod,
    Pump,
}

/// The most slots that a group has: those of one of 16 groups.
pub const MOST_SLOTS: usize = 2 * MOST_GROUPS + 3;

/// How many slots each of `groups` groups has.
pub fn slots_per_group(groups: usize) -> usize
    requires { groups ≤ most_groups }
    ensures { result ≡ slots groups }
{
    2 * groups + 3
}

impl Slot {
    /// Its place among the slots of one of `groups` groups.
    pub fn number(self, groups: usize) -> usize
        requires { (groups ≤ most_groups) × (Within groups (slot_of self)) }
        ensures value { result ≡ slot_number groups (slot_of self) }
        ensures bound { result < slots groups }
    {
        match self {
            Slot::OutTo(other) => usize::from(other),
            Slot::InFrom(other) => groups + usize::from(other),
            Slot::Cons => 2 * groups,
            Slot::Prod => 2 * groups + 1,
            Slot::Pump => 2 * groups + 2,
        }
    }
}
