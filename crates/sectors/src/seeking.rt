// The leftmost sector that carries S.
ghost use Rattle.std.specs.Prelude.{◌≡◌, List, [], ◌∷◌, suc, length};
ghost use Rattle.format.specs.Lent.{cells};
ghost use Rattle.format.specs.Accept.{Placed, from_number, last_of};
ghost use Rattle.sectors.specs.SectorAt.{sector_at, as_sector_at};
ghost use Rattle.sectors.specs.From.{SectorsFrom};

use crate::{SectorAt, sector_at, step_at};

// The place to which a search came, the place of the sector before it, and how many sectors were passed.
// Stays as it is: what may not change (search_from cannot fail: sectors_from_2 gives the place before and the count where no sector carries S).
#[derive(Clone, Copy)]
pub struct Passage {
    pub place: usize,
    pub before: usize,
    pub count: usize,
}

// The search for the leftmost of the sectors from place `start` on that carries S; where none does, all are passed, and the sector before index is the last.
pub fn search_from(track: &[u8], marks: &[u8], start: usize, s: u8) -> Passage
    ensures sectors_from { (xs : List Placed) → SectorsFrom track.now marks.now start xs → SectorsFrom track.now marks.now result.place (from_number s xs) }
    ensures sectors_from_2 { (x : Placed) (xs : List Placed) → SectorsFrom track.now marks.now start (x ∷ xs) → from_number s (x ∷ xs) ≡ [] → SectorsFrom track.now marks.now result.before (last_of x xs ∷ []) × (result.count ≡ suc (length xs)) }
{
    let mut p = start;
    let mut before = start;
    // Stays as it is: the new form is no plainer. for count in 0.. needs an unreachable!() behind it.
    let mut count: usize = 0;
    loop {
        let x = step_at(track, marks, p);
        if x.number == s || x.next <= p {
            return Passage {
                place: p,
                before,
                count,
            };
        }
        before = p;
        p = x.next;
        count += 1;
    }
}

// A sector and the place at which its count opens.
// Stays as it is: what may not change (place_of cannot fail: its clauses give a place and the sector there also where no sector carries S).
#[derive(Clone, Copy)]
pub struct Sought {
    pub place: usize,
    pub sector: SectorAt,
}

// The leftmost of the sectors from place `start` on that carries S; where none does, the place is index.
pub fn place_of(track: &[u8], marks: &[u8], start: usize, s: u8) -> Sought
    ensures sectors_from { (xs : List Placed) → SectorsFrom track.now marks.now start xs → SectorsFrom track.now marks.now result.place (from_number s xs) }
    ensures sector_value { as_sector_at result.sector ≡ sector_at result.place (cells track.now marks.now) }
{
    let place = search_from(track, marks, start, s).place;
    Sought {
        place,
        sector: sector_at(track, marks, place),
    }
}
