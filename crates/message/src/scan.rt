//! One pass over all values of a message: what it finds says which tests have nothing to look for.
ghost use Rattle.std.specs.Prelude.{◌≡◌, ℕ, ◌<◌, ◌≤◌, ◌&&◌, [], length, nat_lt, slice_index_or, true, false};
ghost use Rattle.std.specs.Bool.{OnTrue};
ghost use Rattle.std.specs.Int.{w32, to_le_bytes};
ghost use Rattle.forms.specs.Bytes.{be32};
ghost use Rattle.forms.specs.Slots.{slot_of, out_to, in_from, cons, prod, pump, Within};
ghost use Rattle.message.specs.Values.{StatesAtMost, Unopposed};

use crate::by_slot::SeriesBySlot;
use forms::slot::Slot;

/// The bits of all these values together, which none of them is above; and whether the first list and
/// the second, if there are two, are never above 0 at once.
#[derive(Clone, Copy)]
pub(crate) struct TradeScan {
    pub(crate) bits: u32,
    pub(crate) apart: bool,
}

/// What the pass finds: the bits of all trades together and of all forecasts, and whether trades out to
/// a group and in from it are never above 0 at once.
#[derive(Clone, Copy)]
pub(crate) struct Scan<'s, 'a> {
    pub(crate) series: &'s SeriesBySlot<'a>,
    pub(crate) trades: u32,
    pub(crate) forecasts: u32,
    pub(crate) apart: bool,
    ghost outs: { (b : ℕ) → b < series.now.groups → StatesAtMost series.now.message.quarters series.now.message.bytes.now (out_to b) trades },
    ghost intos: { (b : ℕ) → b < series.now.groups → StatesAtMost series.now.message.quarters series.now.message.bytes.now (in_from b) trades },
    ghost of_cons: { StatesAtMost series.now.message.quarters series.now.message.bytes.now cons forecasts },
    ghost of_prod: { StatesAtMost series.now.message.quarters series.now.message.bytes.now prod forecasts },
    ghost of_pump: { StatesAtMost series.now.message.quarters series.now.message.bytes.now pump forecasts },
    ghost unopposed: { apart ≡ true → (b : ℕ) → b < series.now.groups → Unopposed series.now.message.quarters series.now.message.bytes.now b },
}

/// The number of these bytes, low byte first.
fn low_first(bytes: [u8; 4]) -> u32
    ensures { to_le_bytes w32 result ≡ bytes }
{
    u32::from_le_bytes(bytes)
}

/// The bits of all these values together, in one plain pass. The bytes are turned only once, behind it.
fn all_bits(words: &[[u8; 4]]) -> u32
    ensures { (k : ℕ) → k < length words.now → be32 (slice_index_or words.now k []) 0 ≤ result }
{
    let mut bits = 0;
    for word in words {
        bits |= low_first(*word);
    }
    u32::from_be_bytes(bits.to_le_bytes())
}

/// The same of two lists, and whether they are never above 0 at once, in one plain pass: the lower of two
/// numbers is 0 where one of them is, whichever byte comes first.
fn scan_both(outs: &[[u8; 4]], intos: &[[u8; 4]]) -> TradeScan
    requires { length outs.now ≡ length intos.now }
    ensures outs { (k : ℕ) → k < length outs.now → be32 (slice_index_or outs.now k []) 0 ≤ result.bits }
    ensures intos { (k : ℕ) → k < length intos.now → be32 (slice_index_or intos.now k []) 0 ≤ result.bits }
    ensures apart { OnTrue result.apart ((k : ℕ) → k < length outs.now → (nat_lt 0 (be32 (slice_index_or outs.now k []) 0) && nat_lt 0 (be32 (slice_index_or intos.now k []) 0)) ≡ false) }
{
    let mut bits = 0;
    let mut lower = 0;
    for (t, out) in outs.iter().enumerate() {
        let out = low_first(*out);
        let into = low_first(intos[t]);
        bits |= out | into;
        lower |= out.min(into);
    }
    TradeScan {
        bits: u32::from_be_bytes(bits.to_le_bytes()),
        apart: lower == 0,
    }
}

impl<'a> SeriesBySlot<'a> {
    /// The trades out to group `b` and in from it.
    fn scan_trades(&self, b: u8) -> TradeScan
        requires { b < self.now.groups }
        ensures outs { StatesAtMost self.now.message.quarters self.now.message.bytes.now (out_to b) result.bits }
        ensures intos { StatesAtMost self.now.message.quarters self.now.message.bytes.now (in_from b) result.bits }
        ensures apart { OnTrue result.apart (Unopposed self.now.message.quarters self.now.message.bytes.now b) }
    {
        match (self.words(Slot::OutTo(b)), self.words(Slot::InFrom(b))) {
            (Some(outs), Some(intos)) => scan_both(outs, intos),
            (Some(outs), None) => TradeScan {
                bits: all_bits(outs),
                apart: true,
            },
            (None, Some(intos)) => TradeScan {
                bits: all_bits(intos),
                apart: true,
            },
            (None, None) => TradeScan {
                bits: 0,
                apart: true,
            },
        }
    }

    /// The bits of the values of a slot together, 0 where it has no series.
    fn slot_bits(&self, slot: Slot) -> u32
        requires { Within self.now.groups (slot_of slot) }
        ensures { StatesAtMost self.now.message.quarters self.now.message.bytes.now (slot_of slot) result }
    {
        match self.words(slot) {
            Some(words) => all_bits(words),
            None => 0,
        }
    }

    /// One pass over all values.
    pub(crate) fn scan(&self) -> Scan<'_, 'a>
        ensures { result.series.now ≡ self.now }
    {
        let mut trades = 0;
        let mut apart = true;
        for b in 0..self.groups {
            let scan = self.scan_trades(b);
            trades |= scan.bits;
            apart &= scan.apart;
        }
        let forecasts = self.slot_bits(Slot::Cons)
            | self.slot_bits(Slot::Prod)
            | self.slot_bits(Slot::Pump);
        Scan {
            series: self,
            trades,
            forecasts,
            apart,
        }
    }
}
