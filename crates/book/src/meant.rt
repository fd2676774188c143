//! What an accepted message means.
ghost use Rattle.book.specs.Meant.{MessageStands, MessageFixesNothing};

/// Once a message is accepted its sender has stated what it states, and all others what they had
/// stated before; and no message moves a mark, a penalty or a total.
pub fn message_stands()
    ensures stands { MessageStands }
    ensures fixed { MessageFixesNothing }
{}
