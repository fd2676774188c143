//! One frame after another.
ghost use Rattle.std.specs.Prelude.{◌≡◌, ◌≤◌, map, replicate, is_some, IfOk, None, MatchResult, false};
ghost use Rattle.forms.specs.Bounds.{most_groups};
ghost use Rattle.stage.specs.Asked.{rule_asked};
ghost use Rattle.book.specs.Rows.{row_of, no_row};
ghost use Rattle.session.specs.Letters.{code_of};
ghost use Rattle.session.specs.declared.letter.Letter.TheVariants.{Opening};
ghost use Rattle.session.specs.Replies.{told_by, told_in};
ghost use Rattle.session.specs.Runs.{new_session};
ghost use Rattle.session.specs.Steps.{groups_served, rule_made, by_rule, message_sent, phase_moved, day_ended, stepped};
ghost use Rattle.session.specs.Stops.{stops, too_many};
ghost use Rattle.session.specs.Views.{view_of};

use crate::letter::Letter;
use crate::reply::Reply;
use crate::session::Session;
use book::book::Book;
use book::lawful_sheet::LawfulSheet;
use book::result_row::ResultRow;
use forms::bounds;
use forms::fault::Fault;
use stage::any_rule::rule;
use std::alloc::{AllocError, Global};

/// Whether an opening form is for more groups than a program serves, which are at most `most`.
fn too_many(most: u8, body: &[u8]) -> bool
    ensures { result ≡ too_many most body.now }
{
    body.first().is_some_and(|groups| *groups > most && usize::from(*groups) <= bounds::MOST_GROUPS)
}

/// The groups of an opening form, 0 where a program for at most `most` groups serves none such: the
/// sheet made for it is then empty.
fn groups_served(most: u8, body: &[u8]) -> usize
    ensures value { result ≡ groups_served most body.now }
    ensures few { result ≤ most_groups }
{
    body.first()
        .map(|groups| usize::from(*groups))
        .filter(|groups| *groups <= usize::from(most).min(bounds::MOST_GROUPS))
        .unwrap_or(0)
}

/// Result rows for so many groups, with nothing in them.
fn blank_rows(heap: Global, groups: usize) -> Result<Vec<ResultRow>, AllocError>
    ensures { IfOk result (λ v. map row_of v.items ≡ replicate groups no_row) }
{
    vec![in heap; ResultRow::BLANK; groups]
}

impl Session {
    /// A session before its first frame.
    pub fn new(heap: Global) -> Session
        ensures { view_of result ≡ new_session }
    {
        Session {
            rule: None,
            book: Book::empty(),
            sheet: LawfulSheet::empty(heap),
            rows: Vec::new(heap),
        }
    }

    /// The result rows of the last close.
    pub fn rows(&self) -> &[ResultRow]
        ensures { map row_of result.now ≡ (view_of self.now).rows }
    {
        self.rows.as_slice()
    }

    /// Whether the frame ends the session.
    fn stops(&self, most: u8, letter: Letter, body: &[u8]) -> bool
        ensures { result ≡ stops most (is_some (view_of self.now).rule) (is_some (view_of self.now).place) (code_of letter) body.now }
    {
        let ruled = self.rule.is_some();
        let opened = self.book.is_open();
        match letter {
            Letter::Rule => ruled,
            Letter::Opening => !ruled || opened || too_many(most, body),
            Letter::Message | Letter::Closing => !opened,
            Letter::Advance => !opened || !body.is_empty(),
        }
    }

    fn make_rule(&mut self, body: &[u8]) -> Result<Reply, Fault>
        ensures { (told_in result, view_of self.new) ≡ rule_made (view_of self.old) (rule_asked body.now) }
    {
        self.rule = Some(rule(body)?);
        Ok(Reply::Done)
    }

    /// Opens a book under the session's rule. The session keeps the sheet and the rows only if the book
    /// opens; a refusal stands inside, since only want of memory ends the program.
    fn open(
        &mut self,
        heap: Global,
        most: u8,
        body: &[u8],
    ) -> Result<Result<Reply, Fault>, AllocError>
        ensures { MatchResult result (λ answer. (told_in answer, view_of self.new) ≡ by_rule most (view_of self.old).rule (view_of self.old) body.now) (λ _. view_of self.new ≡ view_of self.old) }
    {
        let Some(chosen) = self.rule else {
            return Ok(Ok(Reply::Stop));
        };
        let groups = groups_served(most, body);
        let mut sheet = LawfulSheet::blank(heap, groups)?;
        let rows = blank_rows(heap, groups)?;
        let opened = self.book.open_on(chosen, body, &mut sheet);
        if opened.is_ok() {
            self.sheet = sheet;
            self.rows = rows;
        }
        Ok(opened.map(|()| Reply::Done))
    }

    fn submit(&mut self, body: &[u8]) -> Result<Reply, Fault>
        ensures { (told_in result, view_of self.new) ≡ message_sent (view_of self.old) body.now }
    {
        let answer = self.book.submit_on(body, &mut self.sheet)?;
        Ok(Reply::Taken(answer))
    }

    fn advance(&mut self) -> Result<Reply, Fault>
        ensures { (told_in result, view_of self.new) ≡ phase_moved (view_of self.old) }
    {
        self.book.advance_on(&self.sheet)?;
        Ok(Reply::Done)
    }

    fn close(&mut self, body: &[u8]) -> Result<Reply, Fault>
        ensures { (told_in result, view_of self.new) ≡ day_ended (view_of self.old) body.now }
    {
        self.book.close_on(body, &mut self.sheet, &mut self.rows)?;
        Ok(Reply::Closed)
    }

    // Heap, bound and frame come from three places: a struct for them would be no plainer.
    /// Takes one frame, by its letter as it came, and answers it, for at most so many groups. Want of memory,
    /// met only by an opening form that does not end the session, changes nothing.
    pub fn step(
        &mut self,
        heap: Global,
        most: u8,
        letter: u8,
        body: &[u8],
    ) -> Result<Reply, AllocError>
        ensures { MatchResult result (λ reply. (told_by reply, view_of self.new) ≡ stepped most (view_of self.old) letter body.now) (λ _. (letter ≡ code_of Opening) × (stops most (is_some (view_of self.old).rule) (is_some (view_of self.old).place) letter body.now ≡ false) × (view_of self.new ≡ view_of self.old)) }
    {
        let Ok(letter) = Letter::try_from(letter) else {
            return Ok(Reply::Stop);
        };
        if self.stops(most, letter, body) {
            return Ok(Reply::Stop);
        }
        let answer = match letter {
            Letter::Rule => self.make_rule(body),
            Letter::Opening => self.open(heap, most, body)?,
            Letter::Message => self.submit(body),
            Letter::Advance => self.advance(),
            Letter::Closing => self.close(body),
        };
        Ok(answer.unwrap_or_else(Reply::Refused))
    }
}
