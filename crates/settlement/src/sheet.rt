//! The sheet of words. Groups and quarter hours count from 0. Each function asks that the groups,
//! slots and quarter hours it is given are there, as an index is asked to be in range, and that there
//! are at most 16 groups: types for such numbers would be no plainer, since they are reckoned with.
ghost use Rattle.std.specs.Prelude.{◌≡◌, ◌*◌, ◌<◌, ◌≤◌};
ghost use Rattle.forms.specs.Bounds.{most_groups};
ghost use Rattle.forms.specs.Slots.{slot_of, slots, Within};
ghost use Rattle.settlement.specs.Sheets.{sheet_size, slot_place, SlotsApart, SheetOf};

use forms::slot::{Slot, slots_per_group};

/// The words of a slot: one for each quarter hour of the longest day.
pub const WORDS_PER_SLOT: usize = 96;

/// How many words the sheet of `groups` groups has.
pub fn sheet_size(groups: usize) -> usize
    requires { groups ≤ most_groups }
    ensures { result ≡ sheet_size groups }
{
    groups * slots_per_group(groups) * WORDS_PER_SLOT
}

/// The place of a group's slot among all slots of the sheet.
pub(crate) fn slot_place(groups: usize, group: usize, slot: Slot) -> usize
    requires { (groups ≤ most_groups) × ((group < groups) × (Within groups (slot_of slot))) }
    ensures value { result ≡ slot_place groups group (slot_of slot) }
    ensures bound { result < groups * slots groups }
{
    group * slots_per_group(groups) + slot.number(groups)
}

/// Slots of different groups, or of different series, never have one place. The contract is that theorem.
pub fn slots_apart()
    ensures { SlotsApart }
{}

/// A reader over the sheet of `groups` groups and the flags that say which slots were sent. Its parts
/// need not fit one another; those of a `WholeSheet` do.
#[derive(Clone, Copy)]
pub struct Sheet<'s, 'w> {
    pub(crate) groups: usize,
    pub(crate) sent: &'s [bool],
    pub(crate) words: &'w [u32],
}

impl<'s, 'w> Sheet<'s, 'w> {
    /// Reads the caller's words, slot by slot, where the flag of the slot is up.
    pub fn new(groups: usize, sent: &'s [bool], words: &'w [u32]) -> Sheet<'s, 'w>
        ensures groups { result.groups ≡ groups }
        ensures sent { result.sent.now ≡ sent.now }
        ensures words { result.words.now ≡ words.now }
    {
        Sheet {
            groups,
            sent,
            words,
        }
    }

    /// The same sheet, where its flags and words are as many as its groups' slots need and no word is above
    /// the bound on powers. It is asked for here, so that no other function has to.
    pub fn whole(self) -> WholeSheet<'s, 'w>
        requires { SheetOf self.groups self.sent.now self.words.now }
        ensures groups { result.groups ≡ self.entry.groups }
        ensures sent { result.sent.now ≡ self.entry.sent.now }
        ensures words { result.words.now ≡ self.entry.words.now }
    {
        WholeSheet {
            groups: self.groups,
            sent: self.sent,
            words: self.words,
        }
    }
}

/// A sheet that has a flag for each slot of its groups, of which there are at most 16, and all their
/// words, none above the bound on powers.
#[derive(Clone, Copy)]
pub struct WholeSheet<'s, 'w> {
    pub(crate) groups: usize,
    pub(crate) sent: &'s [bool],
    pub(crate) words: &'w [u32],
    ghost whole: { SheetOf groups sent.now words.now },
}
