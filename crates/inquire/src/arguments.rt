//! The arguments of the program.
ghost use Rattle.inquire.specs.Arguments.{QuarterRead};

/// The number of a text of decimal digits and nothing else, up to 65535.
pub fn quarter_hour(text: &str) -> Option<u16>
    ensures { QuarterRead result text.now }
{
    match text.as_bytes() {
        [b'+', ..] => None,
        _ => text.parse::<u16>().ok(),
    }
}
