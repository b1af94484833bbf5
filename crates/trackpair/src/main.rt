// Finds a record on a track or on the alternative that it names: `trackpair FIRST SECOND S`. Each file has a track's bytes and behind them as many marks. Writes two lines
// for the key and two for the data: the track that the answer speaks of (1 or 2), its number, with 10 and 11 as in `10.2` the second number too, its place and the part's length;
// and then the part itself.
#![tactic(auto)]

ghost use Rattle.std.specs.Prelude.{◌≤◌, length};

use input::{Halves, Number, ROOM, read_full};
use reader::Wanted;
use std::io::Read;
use std::rt::{Env, Files};
use std::{fs, io, str};

// Writes the answer to the part asked for, and on a line of its own the part.
fn write_part(
    rt: &impl Print,
    name: &str,
    first: Halves,
    second: Halves,
    s: u8,
    wanted: Wanted,
) -> io::Result<()> {
    let (track, marks) = (first.track, first.marks);
    let (other, other_marks) = (second.track, second.marks);
    let found = reader::pair_find_part(track, marks, other, other_marks, s, wanted);
    let part = reader::pair_find(track, marks, other, other_marks, s, wanted);
    let which = if found.second { 2 } else { 1 };
    let answer = format::answer_of(&found.outcome);
    println!(rt;
        "{name} {which} {} {} {}",
        Number(answer),
        answer.place,
        part.len()
    )?;
    rt.write_all(part)?;
    println!(rt)
}

// Writes the lines of the record S.
fn write_record(rt: &impl Print, first: Halves, second: Halves, s: u8) -> io::Result<()> {
    write_part(rt, "key", first, second, s, Wanted::TheKey)?;
    write_part(rt, "data", first, second, s, Wanted::TheData)
}

// Puts argument i at the buffer's start and returns its length; 0 where it is missing or longer than the buffer.
// Stays as it is: an `Option` is no plainer, as both callers take a missing argument for an empty one.
fn argument(rt: &impl Env, i: usize, buffer: &mut [u8]) -> usize
    ensures { result ≤ length buffer.new }
{
    rt.arg(i, buffer).unwrap_or(0)
}

// The text of an error without the system's number of it.
fn words_of(text: &str) -> &str {
    match text.split_once(" (os error ") {
        Some((words, _)) => words,
        None => text,
    }
}

// Writes to standard error what failed, a colon and the error in the system's words.
fn fail<R: Alloc + Eprint>(rt: &R, what: &str, error: &io::Error) -> io::Result<()> {
    let text = format!(in rt.alloc(); "{error}")?;
    eprintln!(rt; "{what}: {}", words_of(text.as_str()))
}

// Opens the file that argument i names; none where that fails, which is said on standard error.
fn open_argument<R: Alloc + Env + Eprint + Files>(rt: &R, i: usize) -> io::Result<Option<R::File>> {
    let mut name = [0u8; 4096];
    let n = argument(rt, i, &mut name);
    let Ok(path) = str::from_utf8(&name[..n]) else {
        eprintln!(rt; "argument {i}: not UTF-8")?;
        return Ok(None);
    };
    match fs::open(rt, path) {
        Ok(file) => Ok(Some(file)),
        Err(error) => {
            fail(rt, path, &error)?;
            Ok(None)
        }
    }
}

// The number up to 255 that one to three decimal digits tell.
fn number_in(digits: &[u8]) -> Option<u8> {
    if digits.len() > 3 || !digits.iter().all(u8::is_ascii_digit) {
        return None;
    }
    str::from_utf8(digits).ok()?.parse().ok()
}

// The number that argument i tells.
fn number_argument(rt: &impl Env, i: usize) -> Option<u8> {
    let mut digits = [0u8; 4];
    let n = argument(rt, i, &mut digits);
    number_in(&digits[..n])
}

// Reads both files and writes the record.
fn find_in_files(
    rt: &impl Print,
    one: &mut impl Read,
    two: &mut impl Read,
    s: u8,
) -> io::Result<()> {
    let mut first = [0u8; ROOM];
    let n = read_full(one, &mut first)?;
    let mut second = [0u8; ROOM];
    let k = read_full(two, &mut second)?;
    write_record(rt, Halves::from(&first[..n]), Halves::from(&second[..k]), s)
}

// Finds the record that the arguments name, or says how to call the program.
fn main(rt: HostRuntime) -> io::Result<()> {
    let Some(s) = number_argument(&rt, 3) else {
        return eprintln!(rt; "usage: trackpair FIRST SECOND S, S from 0 to 255");
    };
    let Some(mut one) = open_argument(&rt, 1)? else {
        return Ok(());
    };
    let Some(mut two) = open_argument(&rt, 2)? else {
        return Ok(());
    };
    find_in_files(&rt, &mut one, &mut two, s)
}
