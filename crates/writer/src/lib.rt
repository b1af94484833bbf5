// Writing a lent track: a blank one, one more sector, and a sector with a new key and data.
#![tactic(auto)]

ghost use Rattle.std.specs.Prelude.{◌≡◌, true, ◌&&◌, ◌+◌, ◌-◌, ◌≤◌, length, take, leb, eqb};
ghost use Rattle.base.specs.Pick.{pick};
ghost use Rattle.format.specs.Answer.{as_answer, done, room_missing};
ghost use Rattle.format.specs.Lent.{bytes_of, marks_of};
ghost use Rattle.format.specs.Block.{least_gap};
ghost use Rattle.format.specs.GapRule.{gap_by, rule_right, wanted_right};
ghost use Rattle.format.specs.Written.{sector_size};
ghost use Rattle.base.specs.Laid.{laid_over, laid_at};
ghost use Rattle.encode.specs.Room.{as_sector};
ghost use Rattle.encode.specs.Gap.{as_rule};
ghost use Rattle.writer.specs.Filled.{filled_span};

pub mod adding;
pub mod blanking;
pub mod correcting;

pub use adding::add;
pub use blanking::blank;
pub use correcting::correct;
use format::Refusal;

// Whether what Add and Correct both are told is within its ranges: the rule of the gap, the key and the data.
#[tactic(auto, unfolding(format::specs::GapRule::wanted_right))]
fn wanted_right(rule: encode::GapRule, key: &[u8], body: &[u8]) -> bool
    ensures { result ≡ wanted_right (as_rule rule) key.now body.now }
{
    encode::rule_right(rule) && encode::content_right(key, body)
}

// Whether the written pair, of the lengths l and k, is as long as the read track, which has n bytes.
fn lengths_agree(n: usize, l: usize, k: usize) -> bool
    ensures { result ≡ (eqb l n && eqb k n) }
{
    l == n && k == n
}

// Whether there is room: 15 where the last block would end later than l - 13.
#[tactic(auto, unfolding(format::specs::Block::least_gap))]
fn judge_room(l: usize, end: usize) -> Result<(), Refusal>
    requires { 13 ≤ l }
    ensures { as_answer result ≡ pick (leb (end + least_gap true) l) done room_missing }
{
    if l - 13 < end {
        return Err(Refusal::RoomMissing);
    }
    Ok(())
}

// The place up to which a sector written at place `at` and the gap behind it reach: to index where it is the last, else by the rule.
#[tactic(auto, using(crate::proofs::Filled::size_most, format::proofs::Written::Gap::rule_most))]
fn span_end(
    rule: encode::GapRule,
    at: usize,
    first: bool,
    kl: usize,
    dl: usize,
    last: bool,
    l: usize,
) -> usize
    requires kl_bound { (kl ≤ 255) × (dl ≤ 65535) }
    requires at_bound { (at ≤ 4002) × (rule_right (as_rule rule) ≡ true) }
    ensures { result ≡ pick last l (at + sector_size first kl dl + gap_by (as_rule rule) kl dl) }
{
    if last {
        return l;
    }
    let kl = kl as u8;
    let dl = dl as u16;
    at + encode::sector_size(first, kl, dl) + encode::gap_after(rule, kl, dl)
}

// Copies the first n bytes and marks.
fn copy_kept(track: &[u8], marks: &[u8], out: &mut [u8], out_marks: &mut [u8], n: usize)
    requires n_in_bounds { (n ≤ length track.now) × (n ≤ length marks.now) }
    requires n_in_bounds_2 { (n ≤ length out.old) × (n ≤ length out_marks.old) }
    ensures bytes { out.new ≡ laid_over (take n track.now) out.old }
    ensures marks { out_marks.new ≡ laid_over (take n marks.now) out_marks.old }
{
    encode::copy_front(track, out, n);
    encode::copy_front(marks, out_marks, n);
}

// Writes a sector from place p on, and the gap behind it up to place `to`.
fn put_span(track: &mut [u8], marks: &mut [u8], p: usize, to: usize, x: encode::Sector)
    requires key_len_bound { (length x.key.now ≤ 255) × (length x.body.now ≤ 65535) }
    requires body_bound { p + sector_size x.first (length x.key.now) (length x.body.now) ≤ to }
    requires to_in_bounds { (to ≤ length track.old) × (to ≤ length marks.old) }
    ensures bytes { track.new ≡ laid_at p (bytes_of (filled_span (to - p) (as_sector x.entry))) track.old }
    ensures marks { marks.new ≡ laid_at p (marks_of (filled_span (to - p) (as_sector x.entry))) marks.old }
{
    encode::write_sector(&mut track[p..], &mut marks[p..], x);
    let n = encode::sector_size(x.first, x.key.len() as u8, x.body.len() as u16);
    encode::fill_gap(track, marks, p + n, to);
}
