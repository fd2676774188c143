//! What a frame's letter says it is.
ghost use Rattle.session.specs.Letters.{Decodes};

/// What a frame is.
#[derive(Clone, Copy)]
pub enum Letter {
    Rule,
    Opening,
    Message,
    Advance,
    Closing,
}

/// A letter that no frame has.
#[derive(Clone, Copy)]
pub struct UnknownLetter;

impl TryFrom<u8> for Letter {
    type Error = UnknownLetter;

    ghost try_from_gives = { Decodes };

    fn try_from(letter: u8) -> Result<Letter, UnknownLetter> {
        match letter {
            b'R' => Ok(Letter::Rule),
            b'O' => Ok(Letter::Opening),
            b'S' => Ok(Letter::Message),
            b'A' => Ok(Letter::Advance),
            b'C' => Ok(Letter::Closing),
            _ => Err(UnknownLetter),
        }
    }
}
