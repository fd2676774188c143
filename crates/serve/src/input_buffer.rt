//! What has come on an input and is not yet taken.
ghost use Rattle.std.specs.Prelude.{◌≡◌, ◌+◌, ◌-◌, ◌≤◌, [], false, length, take, drop, IfOk, vec_len, nat_le};
ghost use Rattle.std.specs.Io.KnownBytes.{ReadConsumes, Keeps, IsAtEnd};
ghost use Rattle.serve.specs.Capacity.{capacity};
ghost use Rattle.serve.specs.Held.{Held, to_come};

use std::alloc::{AllocError, Global};
use std::io;
use std::io::Read;
use std::marker::Model;

/// How many bytes the buffer has.
const CAPACITY: usize = 131_072;

/// An input with a buffer in front of it. `bytes[start..end]` has come and is not yet taken.
// Tried: with a `BufReader` of 8 KiB and each body copied out of it, the program took an eighth longer.
#[derive(Drop)]
pub struct InputBuffer<R: Read> {
    input: R,
    bytes: Vec<u8>,
    start: usize,
    end: usize,
}

// Clauses see the bytes that have come and are not yet taken, and those that the input will still give.
impl<R: Read> Model for InputBuffer<R> {
    ghost Value = { Held };

    ghost view = { λ b. record { bytes = take (b.end - b.start) (drop b.start b.bytes.items); rest = R.remaining b.input } };

    ghost invariant = { λ b. (b.start ≤ b.end) × (b.end ≤ capacity) × (vec_len b.bytes ≡ capacity) };
}

impl<R: Read + Drop> InputBuffer<R> {
    /// An empty buffer in front of the input.
    pub fn new(heap: Global, input: R) -> Result<InputBuffer<R>, AllocError>
        ensures { IfOk result (λ b. b ≡ record { bytes = []; rest = R.remaining input }) }
    {
        let bytes = vec![in heap; 0u8; CAPACITY]?;
        Ok(InputBuffer {
            input,
            bytes,
            start: 0,
            end: 0,
        })
    }

    /// How many bytes have come and are not yet taken.
    pub fn held(&self) -> usize
        ensures { result ≡ length self.now.bytes }
    {
        self.end - self.start
    }

    /// The first so many bytes that have come and are not yet taken.
    pub fn front(&self, count: usize) -> &[u8]
        requires { count ≤ length self.now.bytes }
        ensures value { result.now ≡ take count self.now.bytes }
        ensures len { length result.now ≡ count }
    {
        let from = self.start;
        &self.bytes.as_slice()[from..from + count]
    }

    /// Takes so many bytes.
    pub fn consume(&mut self, count: usize)
        requires { count ≤ length self.old.bytes }
        ensures { self.new ≡ record self.old { bytes = drop count self.old.bytes } }
    {
        self.start += count;
    }

    /// Reads until so many bytes are held, and answers whether they are: not so where the input ends
    /// before. What was held stays in front.
    pub fn fill(&mut self, wanted: usize) -> io::Result<bool>
        requires { wanted ≤ capacity }
        ensures enough { IfOk result (λ enough. enough ≡ nat_le wanted (length self.new.bytes)) }
        ensures short { IfOk result (λ enough. enough ≡ false → IsAtEnd self.new.rest) }
        ensures kept { take (length self.old.bytes) self.new.bytes ≡ self.old.bytes }
        ensures none_lost { Keeps (to_come self.old) (to_come self.new) }
    {
        // All room is behind what is held.
        self.bytes.copy_within(self.start..self.end, 0);
        self.end -= self.start;
        self.start = 0;
        // Each read but the last brings bytes, so this ends; how many reads it takes is the input's to say.
        while self.end < wanted {
            let n = read_after(&mut self.input, &mut self.bytes, self.end)?;
            if n == 0 {
                break;
            }
            self.end += n;
        }
        Ok(wanted <= self.end)
    }
}

/// Reads once, behind the first `end` bytes, and answers how many bytes came.
fn read_after<R: Read>(input: &mut R, bytes: &mut Vec<u8>, end: usize) -> io::Result<usize>
    requires { end ≤ vec_len bytes.old }
    ensures len { vec_len bytes.new ≡ vec_len bytes.old }
    ensures kept { take end bytes.new.items ≡ take end bytes.old.items }
    ensures within { IfOk result (λ n. end + n ≤ vec_len bytes.new) }
    ensures bytes { ReadConsumes (R.remaining input.old) (R.remaining input.new) result (drop end bytes.new.items) }
{
    input.read(&mut bytes.as_mut_slice()[end..])
}
