//! What stands in a whole sheet.
ghost use Rattle.std.specs.Prelude.{◌≡◌, ◌<◌};
ghost use Rattle.forms.specs.Slots.{slot_of, Within};
ghost use Rattle.settlement.specs.Sheets.{words_per_slot, slot_place, held};
ghost use Rattle.settlement.specs.Statements.{sent_on};

use crate::sheet::{WORDS_PER_SLOT, WholeSheet, slot_place};
use forms::slot::Slot;

impl WholeSheet<'_, '_> {
    /// What a group has sent in a slot for the quarter hour `t`, if it has.
    pub(crate) fn held(&self, group: usize, slot: Slot, t: usize) -> Option<u32>
        requires { (group < self.now.groups) × ((Within self.now.groups (slot_of slot)) × (t < words_per_slot)) }
        ensures { result ≡ held self.now.sent.now self.now.words.now (slot_place self.now.groups group (slot_of slot)) t }
    {
        let place = slot_place(self.groups, group, slot);
        self.sent[place].then(|| self.words[place * WORDS_PER_SLOT + t])
    }

    /// What a group has sent in a slot for the quarter hour `t`; a slot not sent counts as zero.
    pub(crate) fn value(&self, group: usize, slot: Slot, t: usize) -> u32
        requires { (group < self.now.groups) × ((Within self.now.groups (slot_of slot)) × (t < words_per_slot)) }
        ensures { result ≡ sent_on self.now group (slot_of slot) t }
    {
        let Some(value) = self.held(group, slot, t) else {
            return 0;
        };
        value
    }
}
