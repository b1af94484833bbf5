// Pair find: the part from whichever of two tracks holds the record, by the flag of the first.
ghost use Rattle.std.specs.Prelude.{◌≡◌, ◌≤◌, length, get_or, drop};
ghost use Rattle.format.specs.Layout.{home_first, home_last};
ghost use Rattle.format.specs.Lent.{cells};
ghost use Rattle.format.specs.Address.{same_address};
ghost use Rattle.format.specs.Span.{span_rest};
ghost use Rattle.format.specs.Accept.{accept};
ghost use Rattle.format.specs.PairFind.{named_track, judge_first_count, judge_first, pair_agrees, find_on_second, pair_find};
ghost use Rattle.sector.specs.As.{as_address, as_home};
ghost use Rattle.accepting.specs.Accepting.{judged_home, HomeInWindow};
ghost use Rattle.reader.specs.Finding.{as_wanted};
ghost use Rattle.reader.specs.Pairing.{as_paired, PairWithin, pair_handed_out};

use crate::candidate::{Candidate, rest_of};
use crate::finding::{Part, Wanted, find_part};
use accepting::{judge, judge_home};
use format::Refusal;
use format::layout::{HOME_TO_COUNT, HOME_TO_COUNT_INFO, PLAIN};
use sector::{Address, Home};

// The outcome, and whether it speaks of the second track.
// Stays as it is: the new form is no plainer, as the flag says also of a refusal which track it speaks of.
#[derive(Clone, Copy, Debug, PartialEq, Eq)]
pub struct Paired {
    pub second: bool,
    pub outcome: Result<Part, Refusal>,
}

// What follows the opening of sector 0's count at place p in its span.
fn first_rest<'a>(track: &'a [u8], marks: &[u8], p: usize) -> &'a [u8]
    ensures { result.now ≡ span_rest 6 (drop p (cells track.now marks.now)) }
{
    let span = search::span_at(track, marks, p, PLAIN);
    if span.length < PLAIN {
        return &track[0..0];
    }
    let size = span.length - PLAIN;
    rest_of(
        track,
        Candidate {
            place: p,
            first: true,
            last: span.last,
            size,
        },
    )
}

// The home h of a track whose count of sector 0 is right: 6 where it does not open, 9 where it does not fit, then 7, then 8.
fn judge_first_count(track: &[u8], marks: &[u8], h: Home) -> Result<Home, Refusal>
    requires { (home_first ≤ h.place) × (h.place ≤ home_last) }
    ensures result_value { judged_home result ≡ judge_first_count (as_home h) (cells track.now marks.now) }
    ensures home_in_window { HomeInWindow result }
{
    let p = h.place + HOME_TO_COUNT;
    if !search::opens_plain(track, marks, p) {
        return Err(Refusal::FirstCountMissing(p));
    }
    let r = first_rest(track, marks, p);
    sector::judge_count(h, 0, None, p, r)?;
    Ok(h)
}

// The home of the first track, where it and sector 0's count are right: 1 to 4, then the count.
fn judge_first(track: &[u8], marks: &[u8]) -> Result<Home, Refusal>
    ensures result_value { judged_home result ≡ judge_first track.now marks.now }
    ensures home_in_window { HomeInWindow result }
{
    if !search::lent_for_reading(track, marks) {
        return Err(Refusal::LentWrong);
    }
    let h = judge_home(track, marks)?;
    judge_first_count(track, marks, h)
}

// The byte at place i with its mark, and 0 past the end.
fn cell_at(track: &[u8], marks: &[u8], i: usize) -> usize
    ensures value { result ≡ get_or (cells track.now marks.now) i 0 }
    ensures upper_bound { result ≤ 65535 }
{
    if i < search::cell_count(track, marks) {
        return track[i] as usize + 256 * marks[i] as usize;
    }
    0
}

// Whether sector 0's count behind home h names the track a.
// Stays as it is: the new form is no plainer, as a cell with its mark is more than a byte and from_be_bytes does not take it.
fn names(track: &[u8], marks: &[u8], h: Home, a: Address) -> bool
    requires { h.place ≤ home_last }
    ensures { result ≡ same_address (as_address a) (named_track (as_home h) (cells track.now marks.now)) }
{
    let p = h.place + HOME_TO_COUNT_INFO;
    let cylinder = cell_at(track, marks, p + 1) * 256 + cell_at(track, marks, p + 2);
    if a.cylinder as usize != cylinder {
        return false;
    }
    let head = cell_at(track, marks, p + 3) * 256 + cell_at(track, marks, p + 4);
    a.head as usize == head
}

// Whether the second track, with home g, is flagged 01, is the one that the first names, and names the first.
fn pair_agrees(
    track: &[u8],
    marks: &[u8],
    h: Home,
    second: &[u8],
    second_marks: &[u8],
    g: Home,
) -> bool
    requires place_le_home_last { h.place ≤ home_last }
    requires place_le_home_last_2 { g.place ≤ home_last }
    ensures { result ≡ pair_agrees (as_home h) (cells track.now marks.now) (as_home g) (cells second.now second_marks.now) }
{
    if g.flag % 4 != 1 {
        return false;
    }
    let own = h.address;
    let other = g.address;
    names(track, marks, h, other) && names(second, second_marks, g, own)
}

// With flag 10 of the first: the second's own answer, then 16 where the two do not agree, then Find on the second.
fn find_on_second(
    track: &[u8],
    marks: &[u8],
    h: Home,
    second: &[u8],
    second_marks: &[u8],
    s: u8,
    wanted: Wanted,
) -> Paired
    requires { h.place ≤ home_last }
    ensures result_value { as_paired result ≡ find_on_second s (as_wanted wanted) (as_home h) (cells track.now marks.now) second.now second_marks.now (accept second.now second_marks.now) }
    ensures pair_within { PairWithin result (length track.now) (length second.now) }
{
    match judge(second, second_marks) {
        Ok(g) => {
            if pair_agrees(track, marks, h, second, second_marks, g) {
                Paired {
                    second: true,
                    outcome: find_part(second, second_marks, s, wanted),
                }
            } else {
                Paired {
                    second: false,
                    outcome: Err(Refusal::PairWrong),
                }
            }
        }
        Err(e) => Paired {
            second: true,
            outcome: Err(e),
        },
    }
}

// Where the information lies, by the flag of the first: 11 refuses, 10 goes to the second, 00 and 01 leave the second unread.
pub fn pair_find_part(
    track: &[u8],
    marks: &[u8],
    second: &[u8],
    second_marks: &[u8],
    s: u8,
    wanted: Wanted,
) -> Paired
    ensures result_value { as_paired result ≡ pair_find s (as_wanted wanted) track.now marks.now second.now second_marks.now }
    ensures pair_within { PairWithin result (length track.now) (length second.now) }
{
    match judge_first(track, marks) {
        Ok(h) => match h.flag % 4 {
            3 => Paired {
                second: false,
                outcome: Err(Refusal::PairWrong),
            },
            2 => find_on_second(track, marks, h, second, second_marks, s, wanted),
            _ => Paired {
                second: false,
                outcome: find_part(track, marks, s, wanted),
            },
        },
        Err(e) => Paired {
            second: false,
            outcome: Err(e),
        },
    }
}

// The key's or the data's information of sector S, as a part of the track that holds the record; the empty part where it is refused.
// Stays as it is: what may not change (the scope document names the form, a slice of either track, and its clause gives the empty part for a refusal).
pub fn pair_find<'a>(
    track: &'a [u8],
    marks: &[u8],
    second: &'a [u8],
    second_marks: &[u8],
    s: u8,
    wanted: Wanted,
) -> &'a [u8]
    ensures { result.now ≡ pair_handed_out track.now second.now (pair_find s (as_wanted wanted) track.now marks.now second.now second_marks.now) }
{
    let found = pair_find_part(track, marks, second, second_marks, s, wanted);
    let lent = if found.second { second } else { track };
    match found.outcome {
        Ok(x) => &lent[x.start..x.start + x.size],
        Err(_) => &lent[0..0],
    }
}
