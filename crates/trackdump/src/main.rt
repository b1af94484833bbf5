// Copies the records of a track out, sound or damaged. The track is given on standard input, its bytes and behind them as many marks. Writes a line for each S that Find
// does not answer 12 for: S, the key and the data in hexadecimal, `-` for an empty one and `!` with the answer's number for a refused one, with 10 and 11 as in `!10.2` the second
// number too; then `ended`.
#![tactic(auto)]

use format::{Answer, Refusal};
use input::{Halves, Number, ROOM, read_full};
use reader::Wanted;
use std::{fmt, io};

// A part as it is printed: its bytes in hexadecimal, `-` where there are none, or `!` and the answer that refuses it.
#[derive(Clone, Copy)]
struct Shown<'a>(Result<&'a [u8], Refusal>);

impl fmt::Display for Shown<'_> {
    fn fmt<W: fmt::Write>(&self, f: &mut fmt::Formatter<W>) -> fmt::Result {
        match self.0 {
            Ok([]) => write!(f, "-"),
            Ok(bytes) => {
                for byte in bytes {
                    write!(f, "{byte:02x}")?;
                }
                Ok(())
            }
            Err(refusal) => write!(f, "!{}", Number(Answer::from(refusal))),
        }
    }
}

// A part of sector S, as Find hands it out.
fn part_of(lent: Halves<'_>, s: u8, wanted: Wanted) -> Result<&[u8], Refusal> {
    reader::find_part(lent.track, lent.marks, s, wanted)?;
    Ok(reader::find(lent.track, lent.marks, s, wanted))
}

// Writes the record of sector S, unless no candidate carries S.
fn write_record(rt: &impl Print, lent: Halves, s: u8) -> io::Result<()> {
    let key = part_of(lent, s, Wanted::TheKey);
    if let Err(Refusal::SectorMissing) = key {
        return Ok(());
    }
    println!(rt;
        "{s} {} {}",
        Shown(key),
        Shown(part_of(lent, s, Wanted::TheData))
    )
}

// Writes the records of all S and that this is their end, or that the input is refused.
fn dump(rt: &impl Print, lent: Halves) -> io::Result<()> {
    if !search::lent_for_reading(lent.track, lent.marks) {
        return println!(rt; "refused 1");
    }
    for s in 0..=u8::MAX {
        write_record(rt, lent, s)?;
    }
    println!(rt; "ended")
}

fn main(rt: HostRuntime) -> io::Result<()> {
    let mut buffer = [0u8; ROOM];
    let n = read_full(&mut rt.stdin(), &mut buffer)?;
    dump(&rt, Halves::from(&buffer[..n]))
}
