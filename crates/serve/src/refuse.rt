//! A program's answer to arguments that it doesn't take.
ghost use Rattle.std.specs.Prelude.{IsErr};

use std::{fmt, io};

/// Says why on the error output, and ends in an error.
pub fn refuse<T: fmt::Display + Drop>(rt: &HostRuntime, why: T) -> io::Result<()>
    ensures { IsErr result }
{
    eprintln!(rt; "{why}")?;
    Err(io::Error::from(io::ErrorKind::InvalidInput))
}
