//! A session between an input and an output.
ghost use Rattle.std.specs.Prelude.{◌≡◌, ◌-◌, ◌⊎◌, [], ◌<◌, ◌≤◌, length, map, take, false, Some, None, OnOk, IfOk, IfSome, IfNone, nat_le};
ghost use Rattle.std.specs.Io.Buffered.{writer_inner, writer_buffer, writer_contents};
ghost use Rattle.std.specs.Io.KnownBytes.{Appends, Keeps, IsAtEnd};
ghost use Rattle.serve.specs.Capacity.{capacity};
ghost use Rattle.serve.specs.Held.{to_come};
ghost use Rattle.serve.specs.Printed.{row_lines, answer};
ghost use Rattle.serve.specs.Sessions.{Serves, SessionLeft};
ghost use Rattle.serve.specs.Taken.{TakesFrame, BodyIsCut};
ghost use Rattle.book.specs.Rows.{row_of};
ghost use Rattle.session.specs.Frames.{announced, frame_head};
ghost use Rattle.session.specs.Replies.{told_by};
ghost use Rattle.session.specs.Runs.{new_session};
ghost use Rattle.session.specs.Views.{view_of};

use crate::input_buffer::InputBuffer;
use book::result_row::ResultRow;
use session::frame::{FRAME_HEAD, body_length};
use session::reply::Reply;
use session::session::Session;
use std::alloc::Global;
use std::io;
use std::io::{BufWriter, Read, Write};

/// A session of at most so many groups, which takes the frames of an input and prints what it answers.
#[derive(Drop)]
pub(crate) struct Service<R: Read, W: Write + Drop> {
    heap: Global,
    most: u8,
    input: InputBuffer<R>,
    output: BufWriter<W>,
    session: Session,
}

impl<R: Read + Drop, W: Write + Drop> Service<R, W> {
    /// A service before its first frame.
    pub(crate) fn new(heap: Global, most: u8, input: R, output: W) -> io::Result<Service<R, W>>
        ensures most { IfOk result (λ s. s.most ≡ most) }
        ensures input { IfOk result (λ s. s.input ≡ record { bytes = []; rest = R.remaining input }) }
        ensures output { IfOk result (λ s. (writer_inner s.output ≡ output) × (writer_buffer s.output ≡ [])) }
        ensures session { IfOk result (λ s. view_of s.session ≡ new_session) }
    {
        Ok(Service {
            heap,
            most,
            input: InputBuffer::new(heap, input)?,
            output: BufWriter::new(heap, output)?,
            session: Session::new(heap),
        })
    }

    /// Takes frame after frame until one ends the session, or the input ends, and answers the session
    /// as the last frame left it.
    pub(crate) fn serve(mut self) -> io::Result<Session>
        ensures { IfOk result (λ s. SessionLeft self.most (view_of self.session) (view_of s) self.input) }
    {
        self.serve_frames()?;
        Ok(self.session)
    }

    /// Takes frame after frame until one ends the session, or the input ends, and prints what each is
    /// answered. All of it has gone out at the end.
    fn serve_frames(&mut self) -> io::Result<()>
        ensures frames { OnOk result (Serves self.old.most (view_of self.old.session) (view_of self.new.session) self.old.input self.new.input (writer_contents W.contents self.old.output) (writer_contents W.contents self.new.output)) }
        ensures out { OnOk result (writer_buffer self.new.output ≡ []) }
    {
        self.answer_frames()?;
        self.output.flush()
    }

    /// The same, where the last answers may still stand in the output's buffer.
    fn answer_frames(&mut self) -> io::Result<()>
        ensures { OnOk result (Serves self.old.most (view_of self.old.session) (view_of self.new.session) self.old.input self.new.input (writer_contents W.contents self.old.output) (writer_contents W.contents self.new.output)) }
    {
        // A loop that waits on input is written as a count, which no input reaches.
        for _turn in 0..u64::MAX {
            let Some(reply) = self.take_frame()? else {
                break;
            };
            self.print(reply)?;
            if let Reply::Stop = reply {
                break;
            }
        }
        Ok(())
    }

    /// Takes the next frame and answers the session's reply to it, or nothing where the input has ended.
    fn take_frame(&mut self) -> io::Result<Option<Reply>>
        ensures step { IfOk result (λ o. IfSome o (λ reply. TakesFrame self.old.most (view_of self.old.session) (told_by reply) (view_of self.new.session) self.old.input self.new.input)) }
        ensures none { IfOk result (λ o. IfNone o (self.new.session ≡ self.old.session)) }
        ensures end { IfOk result (λ o. IfNone o (IsAtEnd (to_come self.new.input))) }
        ensures none_lost { IfOk result (λ o. IfNone o (Keeps (to_come self.old.input) (to_come self.new.input))) }
        ensures first { OnOk result ((self.new.input.rest ≡ self.old.input.rest) ⊎ (writer_buffer self.new.output ≡ [])) }
        ensures printed { Keeps (writer_contents W.contents self.old.output) (writer_contents W.contents self.new.output) }
        ensures most { self.new.most ≡ self.old.most }
    {
        if !self.wait_for(FRAME_HEAD)? {
            let cut_short = self.input.held() > 0;
            return Ok(cut_short.then_some(Reply::Stop));
        }
        let mut head = [0u8; FRAME_HEAD];
        head.copy_from_slice(self.input.front(FRAME_HEAD));
        let Some(length) = self.read_body(head)? else {
            return Ok(Some(Reply::Stop));
        };
        let body = &self.input.front(length)[FRAME_HEAD..];
        let reply = self.session.step(self.heap, self.most, head[0], body)?;
        self.input.consume(length);
        Ok(Some(reply))
    }

    /// Waits for the body of a frame, which follows its head, and answers the length of both, or nothing
    /// where the head announces too much or the body is cut short.
    fn read_body(&mut self, head: [u8; FRAME_HEAD]) -> io::Result<Option<usize>>
        ensures frame { IfOk result (λ o. IfSome o (λ n. (announced head ≡ Some (n - frame_head)) × (frame_head ≤ n) × (n ≤ length self.new.input.bytes))) }
        ensures none { IfOk result (λ o. IfNone o (BodyIsCut head self.new.input)) }
        ensures first { (self.new.input ≡ self.old.input) ⊎ (writer_buffer self.new.output ≡ []) }
        ensures quiet { OnOk result (writer_buffer self.old.output ≡ [] → writer_buffer self.new.output ≡ []) }
        ensures kept { take (length self.old.input.bytes) self.new.input.bytes ≡ self.old.input.bytes }
        ensures none_lost { Keeps (to_come self.old.input) (to_come self.new.input) }
        ensures printed { Keeps (writer_contents W.contents self.old.output) (writer_contents W.contents self.new.output) }
        ensures session { self.new.session ≡ self.old.session }
        ensures most { self.new.most ≡ self.old.most }
    {
        let Some(size) = body_length(head) else {
            return Ok(None);
        };
        let length = FRAME_HEAD + size;
        let whole = self.wait_for(length)?;
        Ok(whole.then_some(length))
    }

    /// Answers whether so many bytes are held, after more was read where they were not. What was
    /// answered goes out before more is waited for.
    fn wait_for(&mut self, wanted: usize) -> io::Result<bool>
        requires { wanted ≤ capacity }
        ensures enough { IfOk result (λ enough. enough ≡ nat_le wanted (length self.new.input.bytes)) }
        ensures short { IfOk result (λ enough. enough ≡ false → IsAtEnd self.new.input.rest) }
        ensures first { (self.new.input ≡ self.old.input) ⊎ (writer_buffer self.new.output ≡ []) }
        ensures quiet { OnOk result (writer_buffer self.old.output ≡ [] → writer_buffer self.new.output ≡ []) }
        ensures answered { IfOk result (λ _. length self.old.input.bytes < wanted → writer_buffer self.new.output ≡ []) }
        ensures kept { take (length self.old.input.bytes) self.new.input.bytes ≡ self.old.input.bytes }
        ensures none_lost { Keeps (to_come self.old.input) (to_come self.new.input) }
        ensures printed { Keeps (writer_contents W.contents self.old.output) (writer_contents W.contents self.new.output) }
        ensures session { self.new.session ≡ self.old.session }
        ensures most { self.new.most ≡ self.old.most }
    {
        if wanted <= self.input.held() {
            return Ok(true);
        }
        self.output.flush()?;
        self.input.fill(wanted)
    }

    /// Prints a reply: its line, or the result rows of a close.
    fn print(&mut self, reply: Reply) -> io::Result<()>
        ensures answer { OnOk result (Appends (writer_contents W.contents self.old.output) (writer_contents W.contents self.new.output) (answer (told_by reply) (view_of self.old.session))) }
        ensures input { self.new.input ≡ self.old.input }
        ensures session { self.new.session ≡ self.old.session }
        ensures most { self.new.most ≡ self.old.most }
    {
        if let Reply::Closed = reply {
            return print_rows(self.session.rows(), &mut self.output);
        }
        writeln!(self.output, "{reply}")
    }
}

/// Prints each row on a line of its own.
fn print_rows<W: Write + Drop>(rows: &[ResultRow], output: &mut BufWriter<W>) -> io::Result<()>
    ensures { OnOk result (Appends (writer_contents W.contents output.old) (writer_contents W.contents output.new) (row_lines (map row_of rows.now))) }
{
    for row in rows {
        writeln!(output, "{row}")?;
    }
    Ok(())
}
