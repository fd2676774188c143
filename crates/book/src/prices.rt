//! The prices of a day.
ghost use Rattle.std.specs.Prelude.{◌≡◌, ℕ, ◌<◌, ◌≤◌, length, pos, slice_index_or};
ghost use Rattle.forms.specs.Closings.{long_price, short_price};
ghost use Rattle.settlement.specs.Sheets.{words_per_slot};

use forms::closing::ClosingForm;
use settlement::sheet::WORDS_PER_SLOT;

/// The long and the short price of each quarter hour, in cents per MWh.
#[derive(Clone, Copy)]
pub(crate) struct Prices {
    pub(crate) long: [i32; WORDS_PER_SLOT],
    pub(crate) short: [i32; WORDS_PER_SLOT],
    ghost long_whole: { length long ≡ words_per_slot },
    ghost short_whole: { length short ≡ words_per_slot },
}

impl Prices {
    /// Those of a closing form for a day of so many quarter hours.
    pub(crate) fn of(form: &ClosingForm<'_>, quarters: u8) -> Prices
        requires { (quarters ≡ form.now.quarters) × (quarters ≤ words_per_slot) }
        ensures long { (t : ℕ) → t < form.now.quarters → slice_index_or result.long t (pos 0) ≡ long_price form.now.groups form.now.quarters form.now.bytes.now t }
        ensures short { (t : ℕ) → t < form.now.quarters → slice_index_or result.short t (pos 0) ≡ short_price form.now.groups form.now.quarters form.now.bytes.now t }
    {
        let mut long = [0; WORDS_PER_SLOT];
        let mut short = [0; WORDS_PER_SLOT];
        for t in 0..usize::from(quarters) {
            long[t] = form.long_price(t);
            short[t] = form.short_price(t);
        }
        Prices { long, short }
    }
}
