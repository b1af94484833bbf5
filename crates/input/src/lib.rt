// What the four programs share: a whole input is read, its two halves are a track and its marks, and an answer is printed by its number.
#![tactic(auto)]

ghost use Rattle.std.specs.Prelude.{◌≡◌, ◌/◌, ◌<◌, ◌≤◌, ◌++◌, length, take, IfOk, Some};
ghost use Rattle.std.specs.Io.KnownBytes.{Consumes, IsAtEnd};
ghost use Rattle.input.specs.Number.{number_text};

use format::Answer;
use format::layout::LONGEST;
use std::io::Read;
use std::{fmt, io};

// The room for an input: the longest track and its marks, and one byte more, so that a longer input is noticed by halves of different length.
pub const ROOM: usize = 2 * LONGEST + 1;

// A track and its marks.
#[derive(Clone, Copy)]
pub struct Halves<'a> {
    pub track: &'a [u8],
    pub marks: &'a [u8],
}

// The two halves of an input; those of an input of odd length differ in length.
impl<'a> From<&'a [u8]> for Halves<'a> {
    ghost from_gives = { λ all h. (h.track.now ++ h.marks.now ≡ all.now) × (length h.track.now ≡ length all.now / 2) };

    fn from(all: &'a [u8]) -> Halves<'a> {
        let (track, marks) = all.split_at(all.len() / 2);
        Halves { track, marks }
    }
}

// Reads until the buffer is full or the input ends, and returns how many bytes it put at the buffer's start: those that the input gives next.
// Stays as it is: `read_exact` refuses an input that ends before, and `read_to_end` takes a `Vec`, for which the library crates have no heap.
pub fn read_full<R: Read>(input: &mut R, buffer: &mut [u8]) -> io::Result<usize>
    ensures bound { IfOk result (λ n. n ≤ length buffer.new) }
    ensures bytes { IfOk result (λ n. Consumes (R.remaining input.old) (R.remaining input.new) (take n buffer.new)) }
    ensures end { IfOk result (λ n. n < length buffer.new → IsAtEnd (R.remaining input.new)) }
{
    let mut done = 0;
    while done < buffer.len() {
        let n = input.read(&mut buffer[done..])?;
        if n == 0 {
            break;
        }
        done += n;
    }
    Ok(done)
}

// An answer as it is printed: its number and, where it has one, a dot and its second number, as in `10.2`.
#[derive(Clone, Copy)]
pub struct Number(pub Answer);

impl fmt::Display for Number {
    ghost output = { λ n. Some (number_text n.0) };

    fn fmt<W: fmt::Write>(&self, f: &mut fmt::Formatter<W>) -> fmt::Result {
        let number = self.0.number;
        let fault = self.0.fault;
        write!(f, "{number}")?;
        if fault != 0 {
            write!(f, ".{fault}")?;
        }
        Ok(())
    }
}
