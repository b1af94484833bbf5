// Searching a lent track and its marks: the test of what is lent, openings, home and spans.
#![tactic(auto)]

ghost use Rattle.std.specs.Prelude.{◌≡◌, ◌+◌, ◌-◌, ◌≤◌, length, drop, eqb};
ghost use Rattle.base.specs.Pick.{pick};
ghost use Rattle.format.specs.Lent.{length_right, marks_legal, lent_for_writing, lent_for_reading, cells};
ghost use Rattle.format.specs.Opening.{starts_with, plain_opening, opens};
ghost use Rattle.format.specs.Home.{find_home};
ghost use Rattle.format.specs.Span.{unmarked_run, runs_to_index, span_length};
ghost use Rattle.search.specs.Place.{judged_place, InWindow};
ghost use Rattle.search.specs.Zero.{zero_run, word_at, step_zeros};

use format::layout::{
    HOME_FIRST, HOME_LAST, LONGEST, MARKED_OPENING, MARKED_OPENING_MARKS, PLAIN, PLAIN_OPENING,
    SHORTEST,
};

pub mod opening;

pub use opening::next_opening;

// Whether L is in range, 3,815 to 4,002.
pub fn length_right(l: usize) -> bool
    ensures { result ≡ length_right l }
{
    if l < SHORTEST {
        return false;
    }
    l <= LONGEST
}

// Whether a pair of the lengths l and k is lent for writing within the rule.
pub fn lent_for_writing(l: usize, k: usize) -> bool
    ensures { result ≡ lent_for_writing l k }
{
    if !length_right(l) {
        return false;
    }
    k == l
}

// Whether every mark is 0 or 1.
pub fn marks_legal(marks: &[u8]) -> bool
    ensures { result ≡ marks_legal marks.now }
{
    let mut any: u8 = 0;
    for mark in marks {
        any |= *mark;
    }
    any < 2
}

// Whether a pair is lent for reading within the rule.
pub fn lent_for_reading(track: &[u8], marks: &[u8]) -> bool
    ensures { result ≡ lent_for_reading track.now marks.now }
{
    if !lent_for_writing(track.len(), marks.len()) {
        return false;
    }
    marks_legal(marks)
}

// How many cells a pair has: the length of the shorter list.
pub fn cell_count(track: &[u8], marks: &[u8]) -> usize
    ensures value { result ≡ length (cells track.now marks.now) }
    ensures upper_bound { (result ≤ length track.now) × (result ≤ length marks.now) }
{
    track.len().min(marks.len())
}

// How many cells a pair has from place p on.
fn cells_from(track: &[u8], marks: &[u8], p: usize) -> usize
    ensures value { result ≡ length (drop p (cells track.now marks.now)) }
    ensures upper_bound { (result ≤ length track.now - p) × (result ≤ length marks.now - p) }
{
    cell_count(track, marks).saturating_sub(p)
}

// Whether the opening of these bytes and marks stands at place p.
fn starts_with(track: &[u8], marks: &[u8], p: usize, opening: &[u8], marking: &[u8]) -> bool
    ensures { result ≡ starts_with (cells opening.now marking.now) (drop p (cells track.now marks.now)) }
{
    let size = cell_count(opening, marking);
    if cells_from(track, marks, p) < size {
        return false;
    }
    let mut any: u8 = 0;
    for k in 0..size {
        any |= track[p + k] ^ opening[k];
        any |= marks[p + k] ^ marking[k];
    }
    any == 0
}

// Whether a plain opening stands at place p: six bytes, none of them marked.
pub fn opens_plain(track: &[u8], marks: &[u8], p: usize) -> bool
    ensures { result ≡ starts_with plain_opening (drop p (cells track.now marks.now)) }
{
    starts_with(track, marks, p, &PLAIN_OPENING, &[0; PLAIN])
}

// Whether a marked opening stands at place p: eight bytes, of which the second and third FF are marked.
pub fn opens_marked(track: &[u8], marks: &[u8], p: usize) -> bool
    ensures { result ≡ opens (drop p (cells track.now marks.now)) }
{
    starts_with(track, marks, p, &MARKED_OPENING, &MARKED_OPENING_MARKS)
}

// Home's place, if it opens in its window: the first of the window's places 23 to 37 at which all six opening bytes agree and are unmarked.
pub fn find_home(track: &[u8], marks: &[u8]) -> Option<usize>
    ensures result_value { judged_place result ≡ find_home (cells track.now marks.now) }
    ensures in_window { InWindow result }
{
    let n = cell_count(track, marks);
    'search: loop {
        'places: for place in HOME_FIRST..=HOME_LAST {
            for k in 0..PLAIN {
                if n <= place + k {
                    continue 'places;
                }
                if track[place + k] != PLAIN_OPENING[k] {
                    continue 'places;
                }
                if marks[place + k] > 0 {
                    continue 'places;
                }
            }
            break 'search Some(place);
        }
        break 'search None;
    }
}

// The eight bytes from place i on as one number.
fn word_at(bytes: &[u8], i: usize) -> u64
    requires { i + 8 ≤ length bytes.now }
    ensures { result ≡ word_at 8 bytes.now i }
{
    let (words, _) = bytes[i..i + 8].as_chunks::<8>();
    u64::from_le_bytes(words[0])
}

// The first of two words, or the second where the first is 0.
fn first_nonzero(a: u64, b: u64) -> u64
    ensures { result ≡ pick (eqb a 0) b a }
{
    if a == 0 {
        return b;
    }
    a
}

// How many bytes stand before the first word that is not 0: none, or the eight of a and n more where a is 0.
fn bytes_passed(a: u64, n: usize) -> usize
    requires { n ≤ 16 }
    ensures value { result ≡ pick (eqb a 0) (8 + n) 0 }
    ensures upper_bound { result ≤ 8 + n }
{
    if a == 0 {
        return 8 + n;
    }
    0
}

// How many zeros a step of four words starts with, of which one is not 0.
fn step_zeros(a: u64, b: u64, c: u64, d: u64) -> usize
    ensures value { result ≡ step_zeros a b c d }
    ensures upper_bound { result ≤ 32 }
{
    let word = first_nonzero(a, first_nonzero(b, first_nonzero(c, d)));
    bytes_passed(a, bytes_passed(b, bytes_passed(c, 0))) + u64::trailing_zeros(word) as usize / 8
}

// How many zeros the bytes start with, found one by one.
fn zeros_singly(bytes: &[u8]) -> usize
    ensures { result ≡ zero_run bytes.now }
{
    for (i, byte) in bytes.iter().enumerate() {
        if *byte != 0 {
            return i;
        }
    }
    bytes.len()
}

// Where the zeros end that the last 32 bytes start with.
fn last_step_end(bytes: &[u8]) -> usize
    requires { 32 ≤ length bytes.now }
    ensures { result ≡ length bytes.now - 32 + zero_run (drop (length bytes.now - 32) bytes.now) }
{
    let i = bytes.len() - 32;
    let a = word_at(bytes, i);
    let b = word_at(bytes, i + 8);
    let c = word_at(bytes, i + 16);
    let d = word_at(bytes, i + 24);
    let any = a | b | c | d;
    if any == 0 {
        return bytes.len();
    }
    i + step_zeros(a, b, c, d)
}

// How many zeros the bytes start with: by steps of 32, of which the last one ends with the bytes.
// Stays as it is: the new form is no plainer, as chunks give no last step that reaches back over the one before it.
fn zero_run(bytes: &[u8]) -> usize
    ensures { result ≡ zero_run bytes.now }
{
    if bytes.len() < 32 {
        return zeros_singly(bytes);
    }
    let mut i = 0;
    while bytes.len() - i >= 32 {
        let a = word_at(bytes, i);
        let b = word_at(bytes, i + 8);
        let c = word_at(bytes, i + 16);
        let d = word_at(bytes, i + 24);
        let any = a | b | c | d;
        if any != 0 {
            return i + step_zeros(a, b, c, d);
        }
        i += 32;
    }
    last_step_end(bytes)
}

// How many cells stand from place p on before the first marked one.
pub fn unmarked_run(track: &[u8], marks: &[u8], p: usize) -> usize
    ensures { result ≡ unmarked_run (drop p (cells track.now marks.now)) }
{
    let left = cells_from(track, marks, p);
    if left == 0 {
        return 0;
    }
    let end = p + left;
    zero_run(&marks[p..end])
}

// The length of a span, and whether it runs to index.
// Stays as it is: the new form is no plainer, as a span has its length whether it runs to index or not.
#[derive(Clone, Copy)]
pub struct Span {
    pub length: usize,
    pub last: bool,
}

// The span of the count at place p, whose opening has o cells.
pub fn span_at(track: &[u8], marks: &[u8], p: usize, o: usize) -> Span
    ensures length_value { result.length ≡ span_length o (drop p (cells track.now marks.now)) }
    ensures last_value { result.last ≡ runs_to_index o (drop p (cells track.now marks.now)) }
    ensures length_in_bounds { (p ≤ length track.now → p + result.length ≤ length track.now) × (p ≤ length marks.now → p + result.length ≤ length marks.now) }
{
    let left = cells_from(track, marks, p);
    if left <= o {
        return Span {
            length: left,
            last: true,
        };
    }
    let run = unmarked_run(track, marks, p + o);
    if run == left - o {
        return Span {
            length: left,
            last: true,
        };
    }
    if o + run < 5 {
        return Span {
            length: 0,
            last: false,
        };
    }
    Span {
        length: o + run - 5,
        last: false,
    }
}
