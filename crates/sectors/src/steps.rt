// A step over a sector, which reads no more of it than its number.
ghost use Rattle.format.specs.Lent.{cells};
ghost use Rattle.sectors.specs.SectorAt.{StepsOver};

use crate::opens_first;
use format::layout::LONGEST;

// S of a sector, where the next span starts, and whether its own span runs to index.
// Stays as it is: what may not change (step_at cannot fail: StepsOver gives each field at each place).
#[derive(Clone, Copy)]
pub struct Step {
    pub number: u8,
    pub next: usize,
    pub last: bool,
}

// The step over the sector whose count opens at place p: these fields of the sector there.
// Stays as it is: with the fields of sector_at in its place the search took 7, 13, 23 and 39 in 100 longer over 4,000 cells with 63, 23, 9 and 2 sectors.
#[tactic(auto, using(crate::proofs::Rest::step_past))]
pub fn step_at(track: &[u8], marks: &[u8], p: usize) -> Step
    ensures { StepsOver result p (cells track.now marks.now) }
{
    if LONGEST < p {
        return Step {
            number: 0,
            next: 0,
            last: true,
        };
    }
    let o = sector::opening_length(opens_first(p));
    let span = search::span_at(track, marks, p, o);
    let n = span.length;
    let from = p + o;
    let next = p + n;
    if n < o {
        return Step {
            number: 0,
            next,
            last: span.last,
        };
    }
    Step {
        number: sector::byte_at(&track[from..next], 5),
        next,
        last: span.last,
    }
}
