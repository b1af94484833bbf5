// Find: the key's or the data's information of sector S on any track, sound or damaged.
ghost use Rattle.std.specs.Prelude.{◌≡◌, ◌+◌, ◌≤◌, length, take, drop, leb};
ghost use Rattle.base.specs.Pick.{pick};
ghost use Rattle.format.specs.Layout.{home_last, marked_length};
ghost use Rattle.format.specs.Home.{first_count_place};
ghost use Rattle.format.specs.Answer.{as_answer};
ghost use Rattle.format.specs.Judged.{answer_of};
ghost use Rattle.format.specs.Lent.{cells};
ghost use Rattle.format.specs.Candidate.{candidates_from};
ghost use Rattle.format.specs.Find.{carrying, candidate_part, find_cells, find};
ghost use Rattle.format.specs.Blocks.{part_at, part_in, blocks_at, wanted_part};
ghost use Rattle.format.specs.Sector.{opening_length};
ghost use Rattle.search.specs.Place.{judged_place, InWindow};
ghost use Rattle.reader.specs.Finding.{as_candidate, standing, as_wanted, wanted_by, judged_wanted, as_part, judged_part, PartWithin, handed_out};

use crate::candidate::{Candidate, next_candidate, rest_of};
use format::Refusal;
use format::layout::{MARKED, PLAIN};
use sectors::LAST_FIRST_COUNT;

// The part of a sector that is asked for.
#[derive(Clone, Copy, Debug, PartialEq, Eq)]
pub enum Wanted {
    TheKey,
    TheData,
}

// The part that a number asks for: 0 the key, 1 the data, and 14 for any other.
impl TryFrom<u8> for Wanted {
    type Error = Refusal;

    ghost try_from_gives = { λ n r. judged_wanted r ≡ wanted_by n };

    fn try_from(number: u8) -> Result<Wanted, Refusal> {
        match number {
            0 => Ok(Wanted::TheKey),
            1 => Ok(Wanted::TheData),
            _ => Err(Refusal::WantedWrong),
        }
    }
}

// A part of the lent track: its first place and its length.
#[derive(Clone, Copy, Debug, PartialEq, Eq)]
pub struct Part {
    pub start: usize,
    pub size: usize,
}

// The part of n bytes from place p on; an empty part is put at 0.
fn part_at(p: usize, n: usize) -> Part
    ensures { as_part result ≡ part_at p n }
{
    if n == 0 {
        return Part { start: 0, size: 0 };
    }
    Part { start: p, size: n }
}

// Where the search goes on behind a candidate of which `size` bytes follow the opening: behind sector 0's last place at the end of its span, as none opens before it.
fn place_behind(place: usize, size: usize) -> usize
    requires { place + size ≤ 9223372036854775807 }
    ensures { result ≡ pick (leb place (first_count_place home_last)) (place + 1) (place + marked_length + size) }
{
    if place <= LAST_FIRST_COUNT {
        return place + 1;
    }
    place + MARKED + size
}

// The first candidate at place `from` or later that carries S, if there is one.
fn next_carrying(
    track: &[u8],
    marks: &[u8],
    home: Option<usize>,
    from: usize,
    s: u8,
) -> Option<Candidate>
    requires { InWindow home }
    ensures { standing track.now result ≡ take 1 (carrying s (candidates_from (judged_place home) from (drop from (cells track.now marks.now)))) }
{
    let mut p = from;
    while let Some(x) = next_candidate(track, marks, home, p) {
        let rest = rest_of(track, x);
        if sector::byte_at(rest, 5) == s {
            return Some(x);
        }
        p = place_behind(x.place, rest.len());
    }
    None
}

// The answer for the part asked for of a candidate, of which r follows the opening: 10 for the key, 11 for the data.
fn judge_wanted(x: Candidate, wanted: Wanted, r: &[u8]) -> Result<(), Refusal>
    requires { x.place ≤ 4002 }
    ensures { as_answer result ≡ answer_of (wanted_part (as_wanted wanted) (blocks_at (x.place + opening_length x.first) r.now)) }
{
    let p = x.place as u32;
    match wanted {
        Wanted::TheKey => sector::judge_key(x.first, p, r),
        Wanted::TheData => sector::judge_data(x.first, p, r),
    }
}

// The part that the information asked for takes in r, which follows a count's opening from place q on.
fn part_in(wanted: Wanted, q: usize, r: &[u8]) -> Part
    requires { q ≤ 4010 }
    ensures { as_part result ≡ part_in (as_wanted wanted) q r.now }
{
    let blocks = sector::measured_in(r);
    match wanted {
        Wanted::TheKey => part_at(q + sector::KEY_OFFSET + PLAIN, blocks.key_length),
        Wanted::TheData => part_at(q + blocks.data_offset + PLAIN, blocks.data_length),
    }
}

// The part asked for of a candidate: 9 where its blocks and the least gap do not fit its span, then 10 for the key or 11 for the data.
fn part_of(track: &[u8], x: Candidate, wanted: Wanted) -> Result<Part, Refusal>
    requires { length track.now ≤ 4002 }
    ensures result_value { judged_part result ≡ candidate_part (as_wanted wanted) (as_candidate track.now x) }
    ensures part_within { PartWithin result (length track.now) }
{
    let r = rest_of(track, x);
    sector::judge_fit(x.place, x.last, r)?;
    judge_wanted(x, wanted, r)?;
    Ok(part_in(wanted, x.place + sector::opening_length(x.first), r))
}

// The part asked for of the only candidate that carries S: 12 where there is none, 13 with the place of the second where there are more.
fn only_part(track: &[u8], marks: &[u8], s: u8, wanted: Wanted) -> Result<Part, Refusal>
    requires { length track.now ≤ 4002 }
    ensures result_value { judged_part result ≡ find_cells s (as_wanted wanted) (cells track.now marks.now) }
    ensures part_within { PartWithin result (length track.now) }
{
    let home = search::find_home(track, marks);
    let Some(x) = next_carrying(track, marks, home, 0, s) else {
        return Err(Refusal::SectorMissing);
    };
    if let Some(y) = next_carrying(track, marks, home, x.place + 1, s) {
        return Err(Refusal::SectorRepeated(y.place));
    }
    part_of(track, x, wanted)
}

// Where the key's or the data's information of sector S lies in the lent track; 1 first.
pub fn find_part(track: &[u8], marks: &[u8], s: u8, wanted: Wanted) -> Result<Part, Refusal>
    ensures result_value { judged_part result ≡ find s (as_wanted wanted) track.now marks.now }
    ensures part_within { PartWithin result (length track.now) }
{
    if !search::lent_for_reading(track, marks) {
        return Err(Refusal::LentWrong);
    }
    only_part(track, marks, s, wanted)
}

// The key's or the data's information of sector S, as a part of the lent track; the empty part where it is refused.
// Stays as it is: what may not change (the scope document names the form: Find hands a slice out, and its clause gives the empty part for a refusal).
pub fn find<'a>(track: &'a [u8], marks: &[u8], s: u8, wanted: Wanted) -> &'a [u8]
    ensures { result.now ≡ handed_out track.now (find s (as_wanted wanted) track.now marks.now) }
{
    match find_part(track, marks, s, wanted) {
        Ok(x) => &track[x.start..x.start + x.size],
        Err(_) => &track[0..0],
    }
}
