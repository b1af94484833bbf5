// Blank: home at 30 and sector 0 behind it, written into a lent pair.
ghost use Rattle.std.specs.Prelude.{◌≡◌, true, ◌++◌, ◌+◌, ◌-◌, ◌≤◌, length};
ghost use Rattle.format.specs.Answer.{as_answer};
ghost use Rattle.format.specs.Layout.{head_length};
ghost use Rattle.format.specs.Lent.{bytes_of, marks_of};
ghost use Rattle.format.specs.Blank.{named_by, blank_right, written_head, blank};
ghost use Rattle.sector.specs.As.{as_address};
ghost use Rattle.format.specs.Written.{sector_size, after, leaves};
ghost use Rattle.encode.specs.Room.{address_of, as_sector};
ghost use Rattle.writer.specs.Filled.{filled_span};

use crate::{judge_room, put_span};
use encode::content_right;
use format::Refusal;
use format::layout::HEAD;
use sector::Address;

// What the count of sector 0 names: the track itself for flags 00 and 11, else the partner.
#[tactic(auto, unfolding(format::specs::Blank::named_by))]
fn named_by(flag: u8, own: Address, partner: Address) -> Address
    ensures { as_address result ≡ named_by flag (as_address own) (as_address partner) }
{
    if sector::names_itself(flag) {
        return own;
    }
    partner
}

// Whether the wanted fields keep their rules.
#[tactic(auto, unfolding(format::specs::Blank::blank_right))]
fn blank_right(own: Address, flag: u8, partner: Address, key: &[u8], body: &[u8]) -> bool
    ensures { result ≡ blank_right (as_address own) flag (as_address partner) key.now body.now }
{
    if !sector::address_in_range(own) {
        return false;
    }
    if 3 < flag {
        return false;
    }
    let named = named_by(flag, own, partner);
    if !sector::address_right(flag, own, named) {
        return false;
    }
    content_right(key, body)
}

// Writes home, with the flag of the sector x, that sector and the gap behind it to index.
fn write_blank(track: &mut [u8], marks: &mut [u8], own: Address, x: encode::Sector)
    requires key_len_bound { (length x.key.now ≤ 255) × (length x.body.now ≤ 65535) }
    requires body_in_bounds { head_length + sector_size x.first (length x.key.now) (length x.body.now) ≤ length track.old }
    requires marks_len { length marks.old ≡ length track.old }
    ensures bytes { track.new ≡ bytes_of (written_head x.entry.flag (as_address own) ++ filled_span (length track.old - head_length) (as_sector x.entry)) }
    ensures marks { marks.new ≡ marks_of (written_head x.entry.flag (as_address own) ++ filled_span (length track.old - head_length) (as_sector x.entry)) }
{
    encode::write_head(track, marks, x.flag, own.cylinder, own.head);
    let l = track.len();
    put_span(track, marks, HEAD, l, x);
}

// Blank: 1, 14 and 15 leave every byte and mark as it was; 0 where home and sector 0 stand in the pair.
#[tactic(auto, using(crate::proofs::Blanked::blank_content, crate::proofs::Blanked::lent_same, crate::proofs::Blanked::lent_least, crate::proofs::Filled::size_most))]
pub fn blank(
    track: &mut [u8],
    marks: &mut [u8],
    cylinder: u16,
    head: u16,
    flag: u8,
    partner_cylinder: u16,
    partner_head: u16,
    s: u8,
    key: &[u8],
    body: &[u8],
) -> Result<(), Refusal>
    ensures { after (as_answer result) track.new marks.new ≡ leaves (blank (length track.old) (length marks.old) (address_of cylinder head) flag (address_of partner_cylinder partner_head) s key.now body.now) track.old marks.old }
{
    if !search::lent_for_writing(track.len(), marks.len()) {
        return Err(Refusal::LentWrong);
    }
    let own = Address { cylinder, head };
    let partner = Address {
        cylinder: partner_cylinder,
        head: partner_head,
    };
    if !blank_right(own, flag, partner, key, body) {
        return Err(Refusal::WantedWrong);
    }
    let n = encode::sector_size(true, key.len() as u8, body.len() as u16);
    judge_room(track.len(), HEAD + n)?;
    let named = named_by(flag, own, partner);
    let x = encode::Sector {
        first: true,
        flag,
        cylinder: named.cylinder,
        head: named.head,
        number: s,
        key,
        body,
    };
    write_blank(track, marks, own, x);
    Ok(())
}
