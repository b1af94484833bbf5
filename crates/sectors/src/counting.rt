// The number of sectors of a track.
ghost use Rattle.std.specs.Prelude.{◌≡◌, List, length};
ghost use Rattle.format.specs.Accept.{Placed};
ghost use Rattle.sectors.specs.From.{SectorsFrom};

use crate::step_at;

// The number of sectors from place `start` on.
pub fn sector_count(track: &[u8], marks: &[u8], start: usize) -> usize
    ensures { (xs : List Placed) → SectorsFrom track.now marks.now start xs → result ≡ length xs }
{
    let mut p = start;
    // Stays as it is: the new form is no plainer. for n in 0.. needs an unreachable!() behind it, and successors(..).count() requires finitely many steps, which the contract of successors does not give.
    let mut n: usize = 0;
    loop {
        let x = step_at(track, marks, p);
        if x.next <= p {
            return n;
        }
        p = x.next;
        n += 1;
    }
}
