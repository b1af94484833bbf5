// Walks over a track, sound or damaged, that is given on standard input, its bytes and behind them as many marks: writes place, flag, S, KL and DL of each
// count that can be read, from left to right, and then the number of the answer that ends the walk.
#![tactic(auto)]

use format::Answer;
use format::layout::LONGEST;
use input::{Halves, ROOM, read_full};
use reader::Visited;
use std::io;

// Writes a candidate.
// Stays as it is: the new form is no plainer, as `tracklist` prints five other numbers of another record.
fn write_visited(rt: &impl Print, v: Visited) -> io::Result<()> {
    println!(rt;
        "{} {} {} {} {}",
        v.place, v.flag, v.number, v.key_length, v.data_length
    )
}

// Writes the steps of a walk up to the one that ends it; no track has as many candidates as bytes. Halves of different length are refused.
fn walk(rt: &impl Print, lent: Halves) -> io::Result<()> {
    let mut walk = walking::start(lent.track, lent.marks);
    for _ in 0..=LONGEST {
        match walk.step() {
            Ok(v) => write_visited(rt, v)?,
            Err(refusal) => return println!(rt; "ended {}", Answer::from(refusal).number),
        }
    }
    Ok(())
}

fn main(rt: HostRuntime) -> io::Result<()> {
    let mut buffer = [0u8; ROOM];
    let n = read_full(&mut rt.stdin(), &mut buffer)?;
    walk(&rt, Halves::from(&buffer[..n]))
}
