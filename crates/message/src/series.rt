//! A series as read: a part of the message, either a trade or a forecast.
ghost use Rattle.std.specs.Prelude.{◌≡◌, ℕ, ◌*◌, ◌/◌, ◌<◌, length, slice_index_or, []};
ghost use Rattle.forms.specs.Bytes.{be32};
ghost use Rattle.forms.specs.Slots.{slot_of};
ghost use Rattle.message.specs.Form.{series_count};
ghost use Rattle.message.specs.Read.{as_read, Shows, Names, bytes_of, slot_read};

use crate::{Head, Message, place, words_of};
use forms::kind::Kind;
use forms::slot::Slot;

/// Whether a trade goes out to the other group or comes in from it.
#[derive(Clone, Copy)]
pub enum Direction {
    Out,
    In,
}

/// What a forecast is of.
#[derive(Clone, Copy)]
pub enum ForecastKind {
    Cons,
    Prod,
    Pump,
}

// Beside what it is about, which is its `Slot`, a series as read knows its place and its values.
/// One series, with its place in the message from 1. Its values are still in bytes. The counter of
/// a trade is that of its head, the other group counted from 1.
#[derive(Clone, Copy)]
pub enum Series<'a> {
    Trade {
        place: u16,
        direction: Direction,
        counter: u8,
        values: &'a [u8],
    },
    Forecast {
        place: u16,
        kind: ForecastKind,
        values: &'a [u8],
    },
}

impl<'a> Message<'a> {
    /// Series `i` as read, or none where its kind is no kind.
    pub fn series(&self, i: u8) -> Option<Series<'a>>
        requires { i < series_count self.now.bytes.now }
        ensures { Shows result self.now.quarters self.now.bytes.now i }
    {
        let Head { kind, counter } = self.head(i);
        let place = place(i);
        let values = self.values(i);
        let series = match Kind::try_from(kind).ok()? {
            Kind::Out => Series::Trade {
                place,
                direction: Direction::Out,
                counter,
                values,
            },
            Kind::In => Series::Trade {
                place,
                direction: Direction::In,
                counter,
                values,
            },
            Kind::Cons => Series::Forecast {
                place,
                kind: ForecastKind::Cons,
                values,
            },
            Kind::Prod => Series::Forecast {
                place,
                kind: ForecastKind::Prod,
                values,
            },
            Kind::Pump => Series::Forecast {
                place,
                kind: ForecastKind::Pump,
                values,
            },
        };
        Some(series)
    }
}

impl<'a> Series<'a> {
    /// Its values, each in its four bytes.
    pub fn words(&self) -> &'a [[u8; 4]]
        ensures count { length result.now ≡ length (bytes_of (as_read self.now)) / 4 }
        ensures each { (t : ℕ) → t < length result.now → be32 (slice_index_or result.now t []) 0 ≡ be32 (bytes_of (as_read self.now)) (4 * t) }
    {
        match self {
            Series::Trade { values, .. } | Series::Forecast { values, .. } => words_of(values),
        }
    }

    /// What it is about. A trade's counter has to name a group.
    pub fn slot(&self) -> Slot
        requires { Names (as_read self.now) }
        ensures { slot_of result ≡ slot_read (as_read self.now) }
    {
        match self {
            Series::Trade {
                direction: Direction::Out,
                counter,
                ..
            } => Slot::OutTo(*counter - 1),
            Series::Trade {
                direction: Direction::In,
                counter,
                ..
            } => Slot::InFrom(*counter - 1),
            Series::Forecast {
                kind: ForecastKind::Cons,
                ..
            } => Slot::Cons,
            Series::Forecast {
                kind: ForecastKind::Prod,
                ..
            } => Slot::Prod,
            Series::Forecast {
                kind: ForecastKind::Pump,
                ..
            } => Slot::Pump,
        }
    }
}
