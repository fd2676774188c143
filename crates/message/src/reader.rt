//! Bytes that may be a message.
ghost use Rattle.std.specs.Prelude.{◌≡◌, IfOk, Ok};
ghost use Rattle.forms.specs.Checks.{verdict};
ghost use Rattle.message.specs.Form.{Formed, said, header_of};

use crate::{HEADER, Message};
use forms::fault::Fault;

/// Bytes that are to be read as a message for a day of `quarters` quarter hours.
#[derive(Clone, Copy)]
pub struct MessageReader<'a> {
    bytes: &'a [u8],
    quarters: u8,
}

impl<'a> MessageReader<'a> {
    /// A reader of `bytes`, for a day of `quarters` quarter hours.
    pub fn new(bytes: &'a [u8], quarters: u8) -> MessageReader<'a>
        ensures bytes { result.bytes.now ≡ bytes.now }
        ensures quarters { result.quarters ≡ quarters }
    {
        MessageReader { bytes, quarters }
    }

    /// The message, where the length is known to be what its sizes give.
    pub fn formed(&self) -> Message<'a>
        requires { Formed self.now.quarters self.now.bytes.now }
        ensures bytes { result.bytes.now ≡ self.now.bytes.now }
        ensures quarters { result.quarters ≡ self.now.quarters }
    {
        Message {
            bytes: self.bytes,
            quarters: self.quarters,
        }
    }

    /// The message, once its header is there and for this day, and the length is what its sizes give.
    pub fn message(&self) -> Result<Message<'a>, Fault>
        ensures value { verdict result ≡ verdict (header_of self.now.quarters self.now.bytes.now) }
        ensures bytes { IfOk result (λ message. message.bytes.now ≡ self.now.bytes.now) }
        ensures quarters { IfOk result (λ message. message.quarters ≡ self.now.quarters) }
        ensures passed { IfOk result (λ message. header_of message.quarters message.bytes.now ≡ Ok (said message.bytes.now)) }
    {
        let bytes = self.bytes;
        if bytes.len() < HEADER {
            return Err(Fault::ShortForm);
        }
        if bytes[1] != self.quarters {
            return Err(Fault::WrongSize);
        }
        let series = bytes[0] as usize;
        let quarters = bytes[1] as usize;
        if bytes.len() != HEADER + 2 * series + 4 * (series * quarters) {
            return Err(Fault::WrongLength);
        }
        Ok(self.formed())
    }
}
