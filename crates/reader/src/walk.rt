// Walk: from one candidate of any S to the next, left to right.
ghost use Rattle.std.specs.Prelude.{◌≡◌, drop};
ghost use Rattle.format.specs.Lent.{cells};
ghost use Rattle.format.specs.Home.{find_home};
ghost use Rattle.format.specs.Candidate.{candidates_from, candidates};
ghost use Rattle.format.specs.Walk.{next_from, step};
ghost use Rattle.search.specs.Place.{judged_place};
ghost use Rattle.reader.specs.Finding.{judged_visit};

use crate::candidate::{next_candidate, rest_of};
use format::Refusal;
use format::layout::MARKED;
use sectors::LAST_FIRST_COUNT;

// What a step gives: the place of the candidate's opening, its flag, S, KL and DL.
#[derive(Clone, Copy, Debug, PartialEq, Eq)]
pub struct Visited {
    pub place: usize,
    pub flag: u8,
    pub number: u8,
    pub key_length: usize,
    pub data_length: usize,
}

// Home's place, looked for only where sector 0's count behind it can open at place `from` or later.
fn home_ahead(track: &[u8], marks: &[u8], from: usize) -> Option<usize>
    ensures { candidates_from (judged_place result) from (drop from (cells track.now marks.now)) ≡ candidates_from (find_home (cells track.now marks.now)) from (drop from (cells track.now marks.now)) }
{
    if from > LAST_FIRST_COUNT {
        return None;
    }
    search::find_home(track, marks)
}

// Where the search from place `from` on starts: where home plays no part, behind an opening of which `from` is the second cell, as none opens within it.
fn search_start(track: &[u8], marks: &[u8], home: Option<usize>, from: usize) -> usize
    ensures { candidates_from (judged_place home) from (drop from (cells track.now marks.now)) ≡ candidates_from (judged_place home) result (drop result (cells track.now marks.now)) }
{
    if home.is_some() || from == 0 {
        return from;
    }
    if search::opens_marked(track, marks, from - 1) {
        return from + (MARKED - 1);
    }
    from
}

// The step of a reader over a pair that is lent within the rule: the first candidate at place `from` or later, 12 with none left.
pub fn step_lent(track: &[u8], marks: &[u8], from: usize) -> Result<Visited, Refusal>
    ensures { judged_visit result ≡ next_from from (candidates (cells track.now marks.now)) }
{
    let home = home_ahead(track, marks, from);
    let start = search_start(track, marks, home, from);
    let x = next_candidate(track, marks, home, start).ok_or(Refusal::SectorMissing)?;
    let r = rest_of(track, x);
    Ok(Visited {
        place: x.place,
        flag: sector::byte_at(r, 0),
        number: sector::byte_at(r, 5),
        key_length: sector::key_length(r),
        data_length: sector::data_length(r),
    })
}

// The step of a reader that has come to place `from`: 1 where the pair is lent out of rule, then the first candidate there or later, 12 with none left.
pub fn step_at(track: &[u8], marks: &[u8], from: usize) -> Result<Visited, Refusal>
    ensures { judged_visit result ≡ step from track.now marks.now }
{
    if !search::lent_for_reading(track, marks) {
        return Err(Refusal::LentWrong);
    }
    step_lent(track, marks, from)
}
