// Lists a track that is given on standard input, its bytes and behind them as many marks: writes the track's address and flag and a line for each sector.
#![tactic(auto)]

use format::Answer;
use input::{Halves, ROOM, read_full};
use listing::Sector;
use sector::Home;
use std::io;

// Writes cylinder, head and flag of the track.
fn write_home(rt: &impl Print, h: Home) -> io::Result<()> {
    let address = h.address;
    println!(rt; "{} {} {}", address.cylinder, address.head, h.flag)
}

// Writes S, flag, KL, DL and the data's place of a sector.
// Stays as it is: the new form is no plainer, as `trackwalk` prints five other numbers of another record.
fn write_sector(rt: &impl Print, x: &Sector) -> io::Result<()> {
    println!(rt;
        "{} {} {} {} {}",
        x.number, x.flag, x.key_length, x.data_length, x.data_place
    )
}

// Writes a line for each sector of an accepted track, from left to right.
fn write_sectors(rt: &impl Print, lent: Halves) -> io::Result<()> {
    let filled = listing::list_all(lent.track, lent.marks);
    if let Ok(count) = filled.listing {
        for record in &filled.records[..count] {
            write_sector(rt, record)?;
        }
    }
    Ok(())
}

// Writes the lines of a track and its marks, or that it is refused; halves of different length are refused.
fn list(rt: &impl Print, lent: Halves) -> io::Result<()> {
    match accepting::judge(lent.track, lent.marks) {
        Ok(home) => {
            write_home(rt, home)?;
            write_sectors(rt, lent)
        }
        Err(refusal) => println!(rt; "refused {}", Answer::from(refusal).number),
    }
}

fn main(rt: HostRuntime) -> io::Result<()> {
    let mut buffer = [0u8; ROOM];
    let n = read_full(&mut rt.stdin(), &mut buffer)?;
    list(&rt, Halves::from(&buffer[..n]))
}
