//! Which heads a message may have.
ghost use Rattle.std.specs.Prelude.{◌≡◌, ◌<◌, ◌≤◌};
ghost use Rattle.forms.specs.Bounds.{most_groups};
ghost use Rattle.forms.specs.Checks.{each_of, Finds};
ghost use Rattle.message.specs.Form.{series_count};
ghost use Rattle.message.specs.Heads.{head_check, once_check, heads_check, HeadsLawful};
ghost use Rattle.message.specs.Places.{ListsPlaces};

use crate::by_slot::SeriesBySlot;
use crate::{Head, Message, place};
use forms::checks::in_order;
use forms::fault::Fault;
use forms::kind::{CONS, IN, OUT, PUMP};
use forms::slot::MOST_SLOTS;

impl<'a> Message<'a> {
    /// The head of series `i` names another group in a trade, and 0 in a forecast.
    fn check_head(&self, groups: u8, own: u8, i: u8) -> Result<(), Fault>
        requires { i < series_count self.now.bytes.now }
        ensures { result ≡ head_check groups own self.now.bytes.now i }
    {
        let Head { kind, counter } = self.head(i);
        // On the number, with ranges and guards: a form that is kept, see docs/DECISIONS.md, Code forms.
        match kind {
            OUT | IN if counter >= 1 && counter <= groups && counter - 1 != own => Ok(()),
            CONS..=PUMP if counter == 0 => Ok(()),
            _ => Err(Fault::UnlawfulHead { series: place(i) }),
        }
    }

    /// Every head is lawful.
    #[tactic(auto, using(forms::proofs::Firsts::each_in_order))]
    fn check_each_head(&self, groups: u8, own: u8) -> Result<(), Fault>
        ensures { result ≡ each_of (head_check groups own self.now.bytes.now) (series_count self.now.bytes.now) }
    {
        in_order(self.count(), |i| self.check_head(groups, own, i))
    }

    /// The series of each slot by the slot's number, once no head stands twice. Of two with one slot the
    /// later is named.
    fn places(&self, groups: usize) -> Result<[Option<u8>; MOST_SLOTS], Fault>
        requires few { groups ≤ most_groups }
        requires lawful { HeadsLawful groups self.now.bytes.now }
        ensures { Finds result (each_of (once_check self.now.bytes.now) (series_count self.now.bytes.now)) (ListsPlaces groups self.now.bytes.now) }
    {
        let mut places = [None; MOST_SLOTS];
        for i in 0..self.count() {
            if let Some(series) = self.series(i) {
                let number = series.slot().number(groups);
                if places[number].is_some() {
                    return Err(Fault::RepeatedHead { series: place(i) });
                }
                places[number] = Some(i);
            }
        }
        Ok(places)
    }

    /// The message's series by their slots, once every head is lawful for the sender `own` (from 0) among
    /// `groups` groups, and none stands twice.
    pub fn check_heads(&self, groups: u8, own: u8) -> Result<SeriesBySlot<'a>, Fault>
        requires { groups ≤ most_groups }
        ensures { Finds result (heads_check groups own self.now.bytes.now) (λ series. (series.message ≡ self.now) × (series.groups ≡ groups) × (series.own ≡ own)) }
    {
        self.check_each_head(groups, own)?;
        let places = self.places(usize::from(groups))?;
        Ok(SeriesBySlot {
            message: *self,
            groups,
            own,
            places,
        })
    }
}
