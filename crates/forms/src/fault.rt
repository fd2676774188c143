//! Why an input is refused, and how a refusal reads.
ghost use Rattle.std.specs.Prelude.{◌≡◌, Some};
ghost use Rattle.forms.specs.Faults.{notice_of, letter_of, shown_of};

use std::fmt;

/// What a refusal is about: the book, the whole form, one series of it, or one quarter hour.
#[derive(Clone, Copy)]
pub enum Level {
    Book,
    Message,
    Series,
    Interval,
}

/// Why an input is refused. Places count from 1.
#[derive(Clone, Copy)]
pub enum Fault {
    /// The form is shorter than its header.
    ShortForm,
    /// A size in the header is none that the form may have here.
    WrongSize,
    /// The length is not what the sizes give.
    WrongLength,
    /// The call does not fit the phase, or the year is over, or no book is open.
    WrongPhase,
    /// The sheet or the result rows do not fit the book, or a word of the sheet is too large.
    WrongBuffer,
    /// There is no such group, or a group trades with itself.
    WrongGroup,
    /// The message is for another day, or the day is not past its cut-off.
    WrongDay,
    /// The version is not the next one.
    WrongVersion,
    /// The head names no series that the group may send.
    UnlawfulHead { series: u16 },
    /// The head stands earlier in the message too.
    RepeatedHead { series: u16 },
    /// A series is left out that has to be there.
    MissingSeries,
    /// A value or a price is out of range; a queried quarter hour has both places 0.
    OutOfRange { series: u16, quarter: u16 },
    /// A forecast above 0 of a group without metering points.
    UnmeteredForecast { series: u16, quarter: u16 },
    /// Trades out to a group and in from it at once.
    OpposedTrades { series: u16, quarter: u16 },
    /// After the cut-off, a trading group's open position grows beyond its limit.
    GrowingPosition { quarter: u16 },
    /// A group row of an opening form is unlawful.
    UnlawfulGroup { group: u16 },
    /// A tariff row or a rule form is unlawful; a rule form has place 0.
    UnlawfulTariff { place: u16 },
}

/// A refusal as it is told: level, number, series and quarter hour. A place that does not apply is 0,
/// and is printed so.
#[derive(Clone, Copy)]
pub struct Notice {
    pub level: Level,
    /// What the documents call the fault by; code knows it as a `Fault`.
    pub number: u8,
    pub series: u16,
    pub quarter: u16,
}

impl Fault {
    /// The level, number and places of this fault.
    pub fn notice(self) -> Notice
        ensures { result ≡ notice_of self }
    {
        let (level, number, series, quarter) = match self {
            Fault::ShortForm => (Level::Message, 1, 0, 0),
            Fault::WrongSize => (Level::Message, 2, 0, 0),
            Fault::WrongLength => (Level::Message, 3, 0, 0),
            Fault::WrongPhase => (Level::Book, 4, 0, 0),
            Fault::WrongBuffer => (Level::Book, 5, 0, 0),
            Fault::WrongGroup => (Level::Message, 6, 0, 0),
            Fault::WrongDay => (Level::Message, 7, 0, 0),
            Fault::WrongVersion => (Level::Message, 8, 0, 0),
            Fault::UnlawfulHead { series } => (Level::Series, 9, series, 0),
            Fault::RepeatedHead { series } => (Level::Series, 10, series, 0),
            Fault::MissingSeries => (Level::Message, 11, 0, 0),
            Fault::OutOfRange { series, quarter } => (Level::Interval, 12, series, quarter),
            Fault::UnmeteredForecast { series, quarter } => (Level::Interval, 13, series, quarter),
            Fault::OpposedTrades { series, quarter } => (Level::Interval, 14, series, quarter),
            Fault::GrowingPosition { quarter } => (Level::Interval, 15, 0, quarter),
            Fault::UnlawfulGroup { group } => (Level::Series, 16, group, 0),
            Fault::UnlawfulTariff { place } => (Level::Series, 17, place, 0),
        };
        Notice {
            level,
            number,
            series,
            quarter,
        }
    }
}

impl Level {
    /// The letter by which the level is told.
    fn letter(self) -> &'static str
        ensures { result.now ≡ letter_of self }
    {
        match self {
            Level::Book => "B",
            Level::Message => "M",
            Level::Series => "S",
            Level::Interval => "I",
        }
    }
}

impl fmt::Display for Fault {
    ghost output = { λ f. Some (shown_of (notice_of f)) };

    fn fmt<W: fmt::Write>(&self, f: &mut fmt::Formatter<W>) -> fmt::Result {
        let Notice {
            level,
            number,
            series,
            quarter,
        } = self.notice();
        let letter = level.letter();
        write!(f, "{letter} {number} {series} {quarter}")
    }
}
