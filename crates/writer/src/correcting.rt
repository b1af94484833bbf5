// Correct: a sector gets a new key and data, and all behind its count's opening is written anew.
ghost use Rattle.std.specs.Prelude.{◌≡◌, true, List, ◌∷◌, ◌++◌, ◌+◌, ◌-◌, ◌≤◌, ◌<◌, length, take};
ghost use Rattle.format.specs.Answer.{as_answer};
ghost use Rattle.format.specs.Lent.{cells, bytes_of, marks_of};
ghost use Rattle.format.specs.Accept.{Placed};
ghost use Rattle.format.specs.GapRule.{rule_right, wanted_right};
ghost use Rattle.format.specs.Written.{as_pair, after, leaves};
ghost use Rattle.format.specs.Correct.{correct_cells, correct};
ghost use Rattle.encode.specs.Gap.{as_rule};
ghost use Rattle.sectors.specs.SectorAt.{last_first_count};
ghost use Rattle.sectors.specs.From.{SectorsFrom, Remaining};
ghost use Rattle.writer.specs.Remaining.{Readable, ReadAt, RemainingRoom, RoomFor, later_cells, farthest, corrected_end, corrected_cells};

use crate::{copy_kept, judge_room, lengths_agree, put_span, span_end, wanted_right};
use format::Refusal;
use format::layout::HOME_TO_COUNT;

// The place at which the last block ends, if the sectors from place p on are written behind a block that ends at `end` with the gap `gap`.
fn end_of_later(
    rule: encode::GapRule,
    track: &[u8],
    marks: &[u8],
    mut p: usize,
    mut end: usize,
    mut gap: usize,
) -> usize
    requires remaining { Remaining track.now marks.now p }
    requires last_first_count_lt_p { (last_first_count < p) × (end + gap ≤ 200000) × (rule_right (as_rule rule) ≡ true) }
    ensures { (xs : List Placed) → SectorsFrom track.now marks.now p xs → result ≡ farthest (as_rule rule) end gap xs }
{
    while p < track.len() {
        let x = sectors::sector_at(track, marks, p);
        let kl = x.key_length as u8;
        let dl = x.data_length as u16;
        end = end + gap + encode::sector_size(false, kl, dl);
        gap = encode::gap_after(rule, kl, dl);
        p = x.next;
    }
    end
}

// Writes the sectors from place p of the old track on, from place `at` of the new one on.
fn write_later(
    rule: encode::GapRule,
    track: &[u8],
    marks: &[u8],
    out: &mut [u8],
    out_marks: &mut [u8],
    mut p: usize,
    mut at: usize,
)
    requires remaining_room { RemainingRoom (as_rule rule) track.now marks.now p at }
    requires out_len { (length out.old ≡ length track.now) × (length out_marks.old ≡ length track.now) }
    ensures bytes { (xs : List Placed) → SectorsFrom track.now marks.now p xs → RoomFor (as_rule rule) (length track.now) at xs → out.new ≡ take at out.old ++ bytes_of (later_cells (as_rule rule) (length track.now - at) xs) }
    ensures marks { (xs : List Placed) → SectorsFrom track.now marks.now p xs → RoomFor (as_rule rule) (length track.now) at xs → out_marks.new ≡ take at out_marks.old ++ marks_of (later_cells (as_rule rule) (length track.now - at) xs) }
{
    while p < track.len() {
        let x = sectors::sector_at(track, marks, p);
        let l = track.len();
        let to = span_end(rule, at, false, x.key_length, x.data_length, x.last, l);
        let k = x.key_place;
        let k_end = k + x.key_length;
        let d = x.data_place;
        let d_end = d + x.data_length;
        let later = encode::Sector {
            first: false,
            flag: x.flag,
            cylinder: x.address.cylinder,
            head: x.address.head,
            number: x.number,
            key: &track[k..k_end],
            body: &track[d..d_end],
        };
        put_span(out, out_marks, at, to, later);
        p = x.next;
        at = to;
    }
}

// The place at which the last block ends, if the sector x at place q gets the new key and data.
#[tactic(auto, using(crate::proofs::Filled::wanted_bounds, crate::proofs::Filled::size_most, format::proofs::Written::Gap::rule_most, format::proofs::Written::Gap::wanted_parts))]
fn corrected_end(
    rule: encode::GapRule,
    track: &[u8],
    marks: &[u8],
    q: usize,
    x: sectors::SectorAt,
    key: &[u8],
    body: &[u8],
) -> usize
    requires read_at { ReadAt track.now marks.now q x }
    requires body_value { wanted_right (as_rule rule) key.now body.now ≡ true }
    ensures { (y : Placed) (ys : List Placed) → SectorsFrom track.now marks.now q (y ∷ ys) → result ≡ corrected_end (as_rule rule) q key.now body.now y ys }
{
    let kl = key.len() as u8;
    let dl = body.len() as u16;
    let first = sectors::opens_first(q);
    let end = q + encode::sector_size(first, kl, dl);
    end_of_later(
        rule,
        track,
        marks,
        x.next,
        end,
        encode::gap_after(rule, kl, dl),
    )
}

// Writes the new track: what stands before place q as it was, the sector x there with the new key and data, and those behind it.
#[tactic(auto, using(crate::proofs::Filled::wanted_bounds, format::proofs::Written::Gap::wanted_parts))]
fn write_corrected(
    rule: encode::GapRule,
    track: &[u8],
    marks: &[u8],
    out: &mut [u8],
    out_marks: &mut [u8],
    q: usize,
    x: sectors::SectorAt,
    key: &[u8],
    body: &[u8],
)
    requires read_at { ReadAt track.now marks.now q x }
    requires ys_in_bounds { (y : Placed) (ys : List Placed) → SectorsFrom track.now marks.now q (y ∷ ys) → corrected_end (as_rule rule) q key.now body.now y ys ≤ length track.now }
    requires body_value { wanted_right (as_rule rule) key.now body.now ≡ true }
    requires marks_len { (length marks.now ≡ length track.now) × (length out.old ≡ length track.now) × (length out_marks.old ≡ length track.now) }
    ensures bytes { (y : Placed) (ys : List Placed) → SectorsFrom track.now marks.now q (y ∷ ys) → out.new ≡ take q track.now ++ bytes_of (corrected_cells (as_rule rule) (length track.now) q key.now body.now y ys) }
    ensures marks { (y : Placed) (ys : List Placed) → SectorsFrom track.now marks.now q (y ∷ ys) → out_marks.new ≡ take q marks.now ++ marks_of (corrected_cells (as_rule rule) (length track.now) q key.now body.now y ys) }
{
    let l = track.len();
    let first = sectors::opens_first(q);
    let to = span_end(rule, q, first, key.len(), body.len(), x.last, l);
    let corrected = encode::Sector {
        first,
        flag: x.flag,
        cylinder: x.address.cylinder,
        head: x.address.head,
        number: x.number,
        key,
        body,
    };
    put_span(out, out_marks, q, to, corrected);
    write_later(rule, track, marks, out, out_marks, x.next, to);
    copy_kept(track, marks, out, out_marks, q);
}

// Correct on an accepted track whose sector 0 opens at place `start`: 14, 12, 15, and then the new track is written.
fn correct_on(
    rule: encode::GapRule,
    track: &[u8],
    marks: &[u8],
    out: &mut [u8],
    out_marks: &mut [u8],
    start: usize,
    s: u8,
    key: &[u8],
    body: &[u8],
) -> Result<(), Refusal>
    requires readable { Readable track.now marks.now start }
    requires out_len { (length out.old ≡ length track.now) × (length out_marks.old ≡ length track.now) }
    ensures { after (as_answer result) out.new out_marks.new ≡ leaves (as_pair (correct_cells (as_rule rule) (cells track.now marks.now) s key.now body.now)) out.old out_marks.old }
{
    if !wanted_right(rule, key, body) {
        return Err(Refusal::WantedWrong);
    }
    let sought = sectors::place_of(track, marks, start, s);
    if track.len() <= sought.place {
        return Err(Refusal::SectorMissing);
    }
    let end = corrected_end(rule, track, marks, sought.place, sought.sector, key, body);
    judge_room(track.len(), end)?;
    write_corrected(
        rule,
        track,
        marks,
        out,
        out_marks,
        sought.place,
        sought.sector,
        key,
        body,
    );
    Ok(())
}

// Correct: 1, the old track's own answer, 14, 12 and 15 leave every byte and mark as it was; 0 where the new track is written.
pub fn correct(
    track: &[u8],
    marks: &[u8],
    new_track: &mut [u8],
    new_marks: &mut [u8],
    s: u8,
    key: &[u8],
    body: &[u8],
    rule: encode::GapRule,
) -> Result<(), Refusal>
    ensures { after (as_answer result) new_track.new new_marks.new ≡ leaves (correct (as_rule rule) track.now marks.now (length new_track.old) (length new_marks.old) s key.now body.now) new_track.old new_marks.old }
{
    if !lengths_agree(track.len(), new_track.len(), new_marks.len()) {
        return Err(Refusal::LentWrong);
    }
    let h = accepting::judge(track, marks)?;
    let start = h.place + HOME_TO_COUNT;
    correct_on(
        rule, track, marks, new_track, new_marks, start, s, key, body,
    )
}
