// Accept: judges a lent track from its marks and its sectors to their numbers.
#![tactic(auto)]

ghost use Rattle.std.specs.Prelude.{◌≡◌, true, [], ◌-◌, ◌≤◌, length, get_or, drop, leb};
ghost use Rattle.base.specs.Pick.{pick};
ghost use Rattle.format.specs.Answer.{as_answer, as_refusal, lent_wrong};
ghost use Rattle.format.specs.Judged.{answer_of, good, then};
ghost use Rattle.format.specs.Layout.{longest_track, home_first, home_last};
ghost use Rattle.format.specs.Lent.{marks_legal, lent_for_writing, cells};
ghost use Rattle.format.specs.Opening.{starts_with, plain_opening};
ghost use Rattle.format.specs.Count.{unsettled, settled};
ghost use Rattle.format.specs.Span.{later_spans, spans};
ghost use Rattle.format.specs.Sector.{judge_sector};
ghost use Rattle.format.specs.Accept.{read_spans, judge_behind, accept};
ghost use Rattle.sector.specs.As.{as_address, as_home, as_settled};
ghost use Rattle.accepting.specs.Wrong.{wrong_left};
ghost use Rattle.accepting.specs.Accepting.{LaterSpans, NoStrayMark, numbers_in, judged_track, TrackInWindow};

use format::Refusal;
use format::layout::{FIRST_COUNT, HOME_TO_COUNT, MARKED, PLAIN};
use sector::{Address, Home};

pub mod home;
pub mod marks;

pub use home::judge_home;
use marks::{MOST_OPENINGS, judge_marks};
use search::Span;

// The answer for a sector in position i and at place p by what follows its count's opening: 9, 7, 8, then 9, 10, 11.
fn judge_sector(
    h: Home,
    i: usize,
    x: Option<Address>,
    p: usize,
    last: bool,
    r: &[u8],
) -> Result<(), Refusal>
    requires { p ≤ 4002 }
    ensures { as_answer result ≡ answer_of (judge_sector (as_home h) i (as_settled x) p last r.now) }
{
    sector::judge_count(h, i, x, p, r)?;
    sector::judge_blocks(i == 0, p as u32, last, r)
}

// The span that starts at place p and ends where the one at k of the list starts, or at index, place l, where the list has no more.
fn listed_span(starts: &[u16], k: usize, p: usize, l: usize) -> Span
    requires { p ≤ get_or starts.now k l }
    ensures { (result.length ≡ get_or starts.now k l - p) × (result.last ≡ leb (length starts.now) k) }
{
    match starts.get(k) {
        Some(start) => Span {
            length: usize::from(*start) - p,
            last: false,
        },
        None => Span {
            length: l - p,
            last: true,
        },
    }
}

// How many sectors are left from the first wrong one on, of those from the odd one at the front of what is left on; 0 where all are right. Its B8 is 1.
// Stays as it is: what may not change (odd and even sectors by turns, a form that the scope document names).
#[cycle(judge_even_judge_odd)]
#[tactic(auto, using(crate::proofs::AcceptSpans::next_start))]
fn judge_odd(track: &[u8], marks: &[u8], starts: &[u16], p: usize, h: Home, named: Address) -> usize
    requires { LaterSpans p track.now marks.now starts.now }
    ensures { result ≡ wrong_left (as_home h) 1 (as_address named) (later_spans (cells track.now marks.now)) }
{
    if track.len() == 0 {
        return 0;
    }
    let span = listed_span(starts, 1, p, p + track.len());
    let n = span.length;
    if !sector::later_right(h, 1, named, span.last, &track[MARKED..n]) {
        return starts.len();
    }
    judge_even(&track[n..], &marks[n..], &starts[1..], p + n, h, named)
}

// The same from the even one at the front of what is left on: its B8 is 0.
// Stays as it is: what may not change (odd and even sectors by turns, a form that the scope document names).
#[cycle(judge_even_judge_odd)]
#[tactic(auto, using(crate::proofs::AcceptSpans::next_start))]
fn judge_even(
    track: &[u8],
    marks: &[u8],
    starts: &[u16],
    p: usize,
    h: Home,
    named: Address,
) -> usize
    requires { LaterSpans p track.now marks.now starts.now }
    ensures { result ≡ wrong_left (as_home h) 2 (as_address named) (later_spans (cells track.now marks.now)) }
{
    if track.len() == 0 {
        return 0;
    }
    let span = listed_span(starts, 1, p, p + track.len());
    let n = span.length;
    if !sector::later_right(h, 2, named, span.last, &track[MARKED..n]) {
        return starts.len();
    }
    judge_odd(&track[n..], &marks[n..], &starts[1..], p + n, h, named)
}

// The answer for the later sectors, the first of which stands at place p: that of the first wrong one.
#[tactic(auto, using(crate::proofs::AcceptWrong::listed_end, crate::proofs::AcceptWrong::left_listed))]
fn judge_later(
    track: &[u8],
    marks: &[u8],
    starts: &[u16],
    p: usize,
    h: Home,
    named: Address,
) -> Result<(), Refusal>
    requires later_spans { LaterSpans p (drop p track.now) (drop p marks.now) starts.now }
    requires p_in_bounds { (p ≤ length track.now) × (length marks.now ≡ length track.now) × (length track.now ≤ longest_track) }
    ensures { as_answer result ≡ answer_of (read_spans (as_home h) 1 (settled (as_address named)) p (later_spans (cells (drop p track.now) (drop p marks.now)))) }
{
    let left = judge_odd(&track[p..], &marks[p..], starts, p, h, named);
    if left == 0 {
        return Ok(());
    }
    let k = starts.len() - left;
    let q = usize::from(starts[k]);
    let span = listed_span(starts, k + 1, q, track.len());
    let from = q + MARKED;
    let to = q + span.length;
    judge_sector(h, k + 1, Some(named), q, span.last, &track[from..to])
}

// The answer for the sectors from sector 0 at place p on: 6 where its count does not open, then sector by sector.
#[tactic(auto, using(crate::proofs::AcceptFirst::first_end))]
fn judge_sectors(
    track: &[u8],
    marks: &[u8],
    starts: &[u16],
    p: usize,
    h: Home,
) -> Result<(), Refusal>
    requires { NoStrayMark p track.now marks.now starts.now }
    ensures { as_answer result ≡ answer_of (read_spans (as_home h) 0 unsettled p (spans (drop p (cells track.now marks.now)))) }
{
    if !search::opens_plain(track, marks, p) {
        return Err(Refusal::FirstCountMissing(p));
    }
    let span = listed_span(starts, 0, p, track.len());
    let from = p + PLAIN;
    let to = p + span.length;
    judge_sector(h, 0, None, p, span.last, &track[from..to])?;
    let named = sector::address_in(&track[from..to]);
    judge_later(track, marks, starts, to, h, named)
}

// The answer for the numbers of the sectors from sector 0 at place p on: 13 for the leftmost that repeats an earlier one.
#[tactic(auto, using(crate::proofs::AcceptFirst::first_end, crate::proofs::AcceptTable::later_end))]
fn judge_numbers(track: &[u8], marks: &[u8], starts: &[u16], p: usize) -> Result<(), Refusal>
    requires no_stray_mark { NoStrayMark p track.now marks.now starts.now }
    requires marks_value { starts_with plain_opening (drop p (cells track.now marks.now)) ≡ true }
    ensures { as_answer result ≡ answer_of (numbers_in [] 0 p (spans (drop p (cells track.now marks.now)))) }
{
    let mut seen = [false; 256];
    let zero = listed_span(starts, 0, p, track.len());
    let from = p + PLAIN;
    let to = p + zero.length;
    let number = usize::from(sector::byte_at(&track[from..to], 5));
    seen[number] = true;
    for (i, start) in starts.iter().enumerate() {
        let q = usize::from(*start);
        let span = listed_span(starts, i + 1, q, track.len());
        let from = q + MARKED;
        let to = q + span.length;
        let s = usize::from(sector::byte_at(&track[from..to], 5));
        if seen[s] {
            return Err(Refusal::SectorRepeated(q));
        }
        seen[s] = true;
    }
    Ok(())
}

// The answer for a track behind its home h: 5, then the sectors, then 13.
fn judge_behind(track: &[u8], marks: &[u8], h: Home) -> Result<(), Refusal>
    requires marks_value { lent_for_writing (length track.now) (length marks.now) ≡ true }
    requires home_first_le_place { (home_first ≤ h.place) × (h.place ≤ home_last) }
    ensures { as_answer result ≡ answer_of (judge_behind (as_home h) (cells track.now marks.now)) }
{
    let p = h.place + HOME_TO_COUNT;
    let mut starts = [0; MOST_OPENINGS];
    let k = judge_marks(track, marks, p + FIRST_COUNT, &mut starts)?;
    judge_sectors(track, marks, &starts[..k], p, h)?;
    judge_numbers(track, marks, &starts[..k], p)
}

// The refusal of a track that e refuses, where 1 for marks that are not legal comes first.
fn refused_by(marks: &[u8], e: Refusal) -> Refusal
    ensures { as_refusal result ≡ pick (marks_legal marks.now) (as_refusal e) lent_wrong }
{
    if search::marks_legal(marks) {
        e
    } else {
        Refusal::LentWrong
    }
}

// The home of an accepted track, or why the track is refused: 1 to 5, then sector by sector, last 13. Where home is right and no mark is stray the marks are legal, so they are looked at for that only before 2 to 5 are given.
pub fn judge(track: &[u8], marks: &[u8]) -> Result<Home, Refusal>
    ensures result_value { judged_track result ≡ then (accept track.now marks.now) (λ a. good a.home) }
    ensures track_in_window { TrackInWindow result }
{
    if !search::lent_for_writing(track.len(), marks.len()) {
        return Err(Refusal::LentWrong);
    }
    let h = match judge_home(track, marks) {
        Ok(h) => h,
        Err(e) => return Err(refused_by(marks, e)),
    };
    match judge_behind(track, marks, h) {
        Ok(()) => Ok(h),
        Err(e) => match e {
            Refusal::MarkStray(_) => Err(refused_by(marks, e)),
            _ => Err(e),
        },
    }
}

// Accept: whether the whole track is accepted, or why it is refused.
pub fn accept(track: &[u8], marks: &[u8]) -> Result<(), Refusal>
    ensures { as_answer result ≡ answer_of (accept track.now marks.now) }
{
    judge(track, marks)?;
    Ok(())
}
