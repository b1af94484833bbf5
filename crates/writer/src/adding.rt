// Add: one more sector after the last, with that block's first-written gap between them.
ghost use Rattle.std.specs.Prelude.{◌≡◌, true, false, ◌++◌, ◌+◌, ◌-◌, ◌≤◌, length, take, replicate};
ghost use Rattle.format.specs.Answer.{as_answer};
ghost use Rattle.format.specs.Lent.{cells, bytes_of, marks_of};
ghost use Rattle.format.specs.GapRule.{wanted_right};
ghost use Rattle.format.specs.Written.{as_pair, sector_size, after, leaves};
ghost use Rattle.format.specs.Add.{added_flag, add_cells, add};
ghost use Rattle.encode.specs.Room.{as_sector};
ghost use Rattle.encode.specs.Gap.{as_rule};
ghost use Rattle.writer.specs.Filled.{filled_span};
ghost use Rattle.writer.specs.Remaining.{ReadableFlag, Addable};

use crate::{copy_kept, judge_room, lengths_agree, put_span, wanted_right};
use format::Refusal;
use format::layout::HOME_TO_COUNT;

// The flag of a new sector in position i: B8 by its position, B7, and B2 B1 as in the home flag f.
#[tactic(auto, unfolding(format::specs::Add::added_flag))]
fn added_flag(f: u8, i: u8, b7: u8) -> u8
    requires { b7 ≤ 1 }
    ensures { result ≡ added_flag f i b7 }
{
    i % 2 * 128 + b7 * 64 + f % 4
}

// Writes the new track: what stands before place `end` as it was, the gap up to place `to`, the new sector x, and the gap to index.
fn write_added(
    track: &[u8],
    marks: &[u8],
    out: &mut [u8],
    out_marks: &mut [u8],
    end: usize,
    to: usize,
    x: encode::Sector,
)
    requires key_len_bound { (length x.key.now ≤ 255) × (length x.body.now ≤ 65535) }
    requires end_le_to { (end ≤ to) × (to + sector_size x.first (length x.key.now) (length x.body.now) ≤ length track.now) }
    requires marks_len { (length marks.now ≡ length track.now) × (length out.old ≡ length track.now) × (length out_marks.old ≡ length track.now) }
    ensures bytes { out.new ≡ take end track.now ++ bytes_of (replicate (to - end) 0xFF ++ filled_span (length track.now - to) (as_sector x.entry)) }
    ensures marks { out_marks.new ≡ take end marks.now ++ marks_of (replicate (to - end) 0xFF ++ filled_span (length track.now - to) (as_sector x.entry)) }
{
    copy_kept(track, marks, out, out_marks, end);
    encode::fill_gap(out, out_marks, end, to);
    let l = track.len();
    put_span(out, out_marks, to, l, x);
}

// Add behind the last of the `count` sectors of an accepted track, at place `at`, where no sector carries S: 15, and then the new track is written.
#[tactic(auto, using(crate::proofs::Filled::wanted_bounds, crate::proofs::Filled::size_most))]
fn add_behind(
    rule: encode::GapRule,
    track: &[u8],
    marks: &[u8],
    out: &mut [u8],
    out_marks: &mut [u8],
    start: usize,
    at: usize,
    count: usize,
    f: u8,
    b7: u8,
    s: u8,
    key: &[u8],
    body: &[u8],
) -> Result<(), Refusal>
    requires addable { Addable track.now marks.now start at count f s }
    requires b7_bound { (b7 ≤ 1) × (wanted_right (as_rule rule) key.now body.now ≡ true) }
    requires out_len { (length out.old ≡ length track.now) × (length out_marks.old ≡ length track.now) }
    ensures { after (as_answer result) out.new out_marks.new ≡ leaves (as_pair (add_cells (as_rule rule) (cells track.now marks.now) b7 s key.now body.now)) out.old out_marks.old }
{
    let last = sectors::sector_at(track, marks, at);
    let kl = last.key_length as u8;
    let dl = last.data_length as u16;
    let to = last.end + encode::gap_after(rule, kl, dl);
    let n = encode::sector_size(false, key.len() as u8, body.len() as u16);
    judge_room(track.len(), to + n)?;
    let i = count as u8;
    let x = encode::Sector {
        first: false,
        flag: added_flag(f, i, b7),
        cylinder: last.address.cylinder,
        head: last.address.head,
        number: s,
        key,
        body,
    };
    write_added(track, marks, out, out_marks, last.end, to, x);
    Ok(())
}

// Add on an accepted track whose sector 0 opens at place `start` and whose home has the flag f: 14, 13, 15, and then the new track is written.
fn add_on(
    rule: encode::GapRule,
    track: &[u8],
    marks: &[u8],
    out: &mut [u8],
    out_marks: &mut [u8],
    start: usize,
    f: u8,
    b7: u8,
    s: u8,
    key: &[u8],
    body: &[u8],
) -> Result<(), Refusal>
    requires readable_flag { ReadableFlag track.now marks.now start f }
    requires out_len { (length out.old ≡ length track.now) × (length out_marks.old ≡ length track.now) }
    ensures { after (as_answer result) out.new out_marks.new ≡ leaves (as_pair (add_cells (as_rule rule) (cells track.now marks.now) b7 s key.now body.now)) out.old out_marks.old }
{
    if 1 < b7 || !wanted_right(rule, key, body) {
        return Err(Refusal::WantedWrong);
    }
    let found = sectors::search_from(track, marks, start, s);
    if found.place < track.len() {
        return Err(Refusal::SectorRepeated(found.place));
    }
    let at = found.before;
    let n = found.count;
    add_behind(
        rule, track, marks, out, out_marks, start, at, n, f, b7, s, key, body,
    )
}

// Add: 1, the old track's own answer, 14, 13 and 15 leave every byte and mark as it was; 0 where the new track is written.
pub fn add(
    track: &[u8],
    marks: &[u8],
    new_track: &mut [u8],
    new_marks: &mut [u8],
    b7: u8,
    s: u8,
    key: &[u8],
    body: &[u8],
    rule: encode::GapRule,
) -> Result<(), Refusal>
    ensures { after (as_answer result) new_track.new new_marks.new ≡ leaves (add (as_rule rule) track.now marks.now (length new_track.old) (length new_marks.old) b7 s key.now body.now) new_track.old new_marks.old }
{
    if !lengths_agree(track.len(), new_track.len(), new_marks.len()) {
        return Err(Refusal::LentWrong);
    }
    let h = accepting::judge(track, marks)?;
    let start = h.place + HOME_TO_COUNT;
    add_on(
        rule, track, marks, new_track, new_marks, start, h.flag, b7, s, key, body,
    )
}
