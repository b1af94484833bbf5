// The candidates of a track, sound or damaged, one by one from left to right.
ghost use Rattle.std.specs.Prelude.{◌≡◌, ◌+◌, ◌≤◌, take, drop};
ghost use Rattle.format.specs.Lent.{cells};
ghost use Rattle.format.specs.Sector.{opening_length};
ghost use Rattle.format.specs.Candidate.{first_opens_at, candidates_from};
ghost use Rattle.search.specs.Place.{judged_place};
ghost use Rattle.reader.specs.Finding.{standing, passing, standing_at};

use format::layout::{COUNT_TAIL, HOME_TO_COUNT};

// A count that opens: its place, is it sector 0's, does its span run to index, and how many bytes follow the opening in the span.
// Stays as it is: the new form is no plainer, as both flags are told of each candidate and no value hangs on them.
#[derive(Clone, Copy, Debug, PartialEq, Eq)]
pub struct Candidate {
    pub place: usize,
    pub first: bool,
    pub last: bool,
    pub size: usize,
}

// What follows the opening of a candidate in its span, as a part of the track.
pub fn rest_of<'a>(track: &'a [u8], x: Candidate) -> &'a [u8]
    ensures { result.now ≡ take x.size (drop (x.place + opening_length x.first) track.now) }
{
    let o = sector::opening_length(x.first);
    let from = x.place.saturating_add(o).min(track.len());
    let size = x.size.min(track.len() - from);
    &track[from..from + size]
}

// Whether sector 0's count opens at place p, 11 bytes after a home that opens.
fn first_opens_at(track: &[u8], marks: &[u8], home: Option<usize>, p: usize) -> bool
    ensures { result ≡ first_opens_at (judged_place home) p (drop p (cells track.now marks.now)) }
{
    match home {
        Some(h) => {
            if p < HOME_TO_COUNT || p - HOME_TO_COUNT != h {
                return false;
            }
            search::opens_plain(track, marks, p)
        }
        None => false,
    }
}

// The count that opens at place p, where it lies in its span and passes its check and closing byte.
fn passing_at(track: &[u8], marks: &[u8], first: bool, p: usize) -> Option<Candidate>
    ensures { standing track.now result ≡ passing first p (drop p (cells track.now marks.now)) }
{
    let o = sector::opening_length(first);
    let span = search::span_at(track, marks, p, o);
    let size = span.length.checked_sub(o)?;
    if size < COUNT_TAIL {
        return None;
    }
    let from = p + o;
    if !sector::count_closed(&track[from..from + size]) {
        return None;
    }
    Some(Candidate {
        place: p,
        first,
        last: span.last,
        size,
    })
}

// The candidate at place p, if one stands there: a count is looked at only where it opens.
fn stands_at(track: &[u8], marks: &[u8], home: Option<usize>, p: usize) -> Option<Candidate>
    ensures { standing track.now result ≡ standing_at (judged_place home) p (drop p (cells track.now marks.now)) }
{
    if first_opens_at(track, marks, home, p) {
        return passing_at(track, marks, true, p);
    }
    if search::opens_marked(track, marks, p) {
        return passing_at(track, marks, false, p);
    }
    None
}

// The first place at p or later at which a count may open: a marked opening, or sector 0's place behind home; no candidate stands before it.
fn next_place(track: &[u8], marks: &[u8], home: Option<usize>, p: usize) -> usize
    ensures { (p ≤ result) × (candidates_from (judged_place home) p (drop p (cells track.now marks.now)) ≡ candidates_from (judged_place home) result (drop result (cells track.now marks.now))) }
{
    if search::opens_marked(track, marks, p) {
        return p;
    }
    let q = search::next_opening(track, marks, p);
    let Some(h) = home else {
        return q;
    };
    let first = h.saturating_add(HOME_TO_COUNT);
    if p <= first && first < q { first } else { q }
}

// The first candidate at place `from` or later, if there is one.
pub fn next_candidate(
    track: &[u8],
    marks: &[u8],
    home: Option<usize>,
    from: usize,
) -> Option<Candidate>
    ensures { standing track.now result ≡ take 1 (candidates_from (judged_place home) from (drop from (cells track.now marks.now))) }
{
    let n = search::cell_count(track, marks);
    let mut p = next_place(track, marks, home, from);
    while p < n {
        if let Some(x) = stands_at(track, marks, home, p) {
            return Some(x);
        }
        p = next_place(track, marks, home, p + 1);
    }
    None
}
