//! The theorem over whole journals of calls, that there are such journals, and that a session's
//! frames are one.
#![tactic(auto)]

ghost use Rattle.journal.specs.Exhibit.{FartherCostsMore};
ghost use Rattle.journal.specs.Exists.{OneJournal};
ghost use Rattle.journal.specs.Sessions.{SessionsAreJournals};
ghost use Rattle.journal.specs.Theorem.{JournalsAreSound};

/// Nobody who sends messages can bend the account. Every list of calls has exactly one journal,
/// and there are two in which standing farther out does cost more. What a session does is a journal of
/// the book that it opened.
pub fn journals_are_sound()
    ensures theorem { JournalsAreSound }
    ensures journals { OneJournal }
    ensures exhibit { FartherCostsMore }
    ensures sessions { SessionsAreJournals }
{}
