//! The kinds by which heads name what a series is about.
ghost use Rattle.forms.specs.Kinds.{KindRead};

/// The kind of trades out to a group.
pub const OUT: u8 = 1;

/// The kind of trades in from a group.
pub const IN: u8 = 2;

/// The kind of a forecast of consumption.
pub const CONS: u8 = 3;

/// The kind of a forecast of production.
pub const PROD: u8 = 4;

/// The kind of a forecast of pumps.
pub const PUMP: u8 = 5;

/// What a series is about, but for the other group of a trade.
#[derive(Clone, Copy)]
pub enum Kind {
    Out,
    In,
    Cons,
    Prod,
    Pump,
}

/// A kind that no series has.
#[derive(Clone, Copy)]
pub struct UnknownKind;

impl TryFrom<u8> for Kind {
    type Error = UnknownKind;

    ghost try_from_gives = { KindRead };

    fn try_from(kind: u8) -> Result<Kind, UnknownKind> {
        match kind {
            OUT => Ok(Kind::Out),
            IN => Ok(Kind::In),
            CONS => Ok(Kind::Cons),
            PROD => Ok(Kind::Prod),
            PUMP => Ok(Kind::Pump),
            _ => Err(UnknownKind),
        }
    }
}
