// First-written form of home, of one sector and of gaps, written into lent parts of the track's bytes and marks.
#![tactic(auto)]

ghost use Rattle.std.specs.Prelude.{◌≡◌, true, ◌++◌, ◌+◌, ◌-◌, ◌≤◌, length, take, replicate};
ghost use Rattle.format.specs.Layout.{gap_length, count_tail, head_length};
ghost use Rattle.format.specs.Lent.{bytes_of, marks_of, unmarked};
ghost use Rattle.format.specs.Opening.{closing};
ghost use Rattle.format.specs.Sector.{opening_length, content_right};
ghost use Rattle.format.specs.Block.{key_size};
ghost use Rattle.format.specs.GapRule.{gap_one, gap_two, rule_two, gap_by, rule_right};
ghost use Rattle.format.specs.Written.{data_size, inner_gap, written_block, written_key, written_data, count_opening, written_sector, sector_size};
ghost use Rattle.format.specs.Blank.{written_head};
ghost use Rattle.base.specs.Laid.{laid_over, laid_at, laid_if, laid_at_if};
ghost use Rattle.encode.specs.Room.{address_of, as_sector, both_fit, sector_fits, gap_fits};
ghost use Rattle.encode.specs.Bytes.{count_bytes};
ghost use Rattle.encode.specs.Gap.{as_rule};

use format::layout::{
    BLOCK_FRAME, CLOSING_BYTE, COUNT_TO_BLOCK, EMPTY_BLOCK, GAP, HEAD, INDEX_GAP, KEY_FRAME,
    MARKED_OPENING, MARKED_OPENING_MARKS, PLAIN_OPENING, opening_length,
};

// The rules by which the gap after a data block is written.
// Stays as it is: Option<(u16, u16)> would write rule one as None, and None says less than One.
#[derive(Clone, Copy)]
pub enum GapRule {
    One,
    Two { a: u16, b: u16 },
}

// A sector to be written: whether it is sector 0, its flag, the address that its count names, S, key and data.
// Stays as it is: the new form is no plainer, as each sector has all of these, sector 0 or not.
#[derive(Clone, Copy)]
pub struct Sector<'a> {
    pub first: bool,
    pub flag: u8,
    pub cylinder: u16,
    pub head: u16,
    pub number: u8,
    pub key: &'a [u8],
    pub body: &'a [u8],
}

// The gap after a data block by rule one.
#[tactic(auto, unfolding(format::specs::GapRule::gap_one))]
fn gap_one(kl: u8, dl: u16) -> usize
    ensures { result ≡ gap_one kl dl }
{
    21 + (usize::from(kl) + usize::from(dl)) / 20
}

// The gap after a data block by rule two; 21 where b = 0, which is out of range.
#[tactic(auto, unfolding(format::specs::GapRule::gap_two))]
fn gap_two(a: u16, b: u16, kl: u8, dl: u16) -> usize
    ensures { result ≡ gap_two a b kl dl }
{
    if b == 0 {
        return 21;
    }
    21 + (usize::from(kl) + usize::from(dl)) * usize::from(a) / usize::from(b)
}

// The gap after a data block by a rule.
pub fn gap_after(rule: GapRule, kl: u8, dl: u16) -> usize
    ensures { result ≡ gap_by (as_rule rule) kl dl }
{
    match rule {
        GapRule::One => gap_one(kl, dl),
        GapRule::Two { a, b } => gap_two(a, b, kl, dl),
    }
}

// Whether b is from 1 to 1,000 and a from 0 to b.
#[tactic(auto, unfolding(format::specs::GapRule::rule_right))]
fn ratio_right(a: u16, b: u16) -> bool
    ensures { result ≡ rule_right (rule_two a b) }
{
    1 <= b && b <= 1000 && a <= b
}

// Whether a rule is in range; rule one always is.
#[tactic(auto, unfolding(format::specs::GapRule::rule_right))]
pub fn rule_right(rule: GapRule) -> bool
    ensures { result ≡ rule_right (as_rule rule) }
{
    match rule {
        GapRule::One => true,
        GapRule::Two { a, b } => ratio_right(a, b),
    }
}

// Whether a key and data keep their rule: at most 255 bytes and at most 65,535.
#[tactic(auto, unfolding(format::specs::Sector::content_right))]
pub fn content_right(key: &[u8], body: &[u8]) -> bool
    ensures { result ≡ content_right key.now body.now }
{
    key.len() <= 255 && body.len() <= 65535
}

// What a key of kl bytes takes, with its gap of 11.
#[tactic(auto, unfolding(format::specs::Block::key_size))]
fn key_size(kl: u8) -> usize
    ensures { (result ≡ key_size kl) × (result ≤ 275) }
{
    if kl == 0 {
        0
    } else {
        usize::from(kl) + KEY_FRAME
    }
}

// What a data block of dl bytes takes.
#[tactic(auto, unfolding(format::specs::Written::data_size))]
fn data_size(dl: u16) -> usize
    ensures { (result ≡ data_size dl) × (result ≤ 65544) }
{
    if dl == 0 {
        EMPTY_BLOCK
    } else {
        usize::from(dl) + BLOCK_FRAME
    }
}

// What a sector with such lengths takes without the gap after it.
#[tactic(auto, unfolding(format::specs::Written::sector_size))]
pub fn sector_size(first: bool, kl: u8, dl: u16) -> usize
    ensures { result ≡ sector_size first kl dl }
{
    opening_length(first) + COUNT_TO_BLOCK + key_size(kl) + data_size(dl)
}

// Writes n bytes b from place at on and gives the place behind them.
#[tactic(auto, unfolding(base::specs::Laid::laid_at))]
fn put_run(t: &mut [u8], at: usize, n: usize, b: u8) -> usize
    requires { at + n ≤ length t.old }
    ensures place { result ≡ at + n }
    ensures bytes { t.new ≡ laid_at at (replicate n b) t.old }
{
    let end = at + n;
    t[at..end].fill(b);
    end
}

// Writes the bytes of src from place at on and gives the place behind them.
#[tactic(auto, unfolding(base::specs::Laid::laid_at))]
fn put_bytes(t: &mut [u8], at: usize, src: &[u8]) -> usize
    requires { at + length src.now ≤ length t.old }
    ensures place { result ≡ at + length src.now }
    ensures bytes { t.new ≡ laid_at at src.now t.old }
{
    let end = at + src.len();
    t[at..end].copy_from_slice(src);
    end
}

// Writes a gap from place `from` up to `to`, FF with mark 0, where these places lie in both parts; else nothing is written.
// Stays as it is: what may not change (the clauses say by this bool, laid_if, what is written).
pub fn fill_gap(track: &mut [u8], marks: &mut [u8], from: usize, to: usize) -> bool
    ensures answer { result ≡ gap_fits from to (length track.old) (length marks.old) }
    ensures bytes { track.new ≡ laid_at_if result from (replicate (to - from) 0xFF) track.old }
    ensures marks { marks.new ≡ laid_at_if result from (replicate (to - from) 0x00) marks.old }
{
    if to < from {
        return false;
    }
    if track.len() < to {
        return false;
    }
    if marks.len() < to {
        return false;
    }
    put_run(track, from, to - from, 0xFF);
    put_run(marks, from, to - from, 0);
    true
}

// Writes the first n bytes of old over the front of new, where both have n bytes; else nothing is written.
// Stays as it is: what may not change (the clauses say by this bool, laid_if, what is written).
pub fn copy_front(old: &[u8], new: &mut [u8], n: usize) -> bool
    ensures answer { result ≡ both_fit n (length old.now) (length new.old) }
    ensures bytes { new.new ≡ laid_if result (take n old.now) new.old }
{
    if old.len() < n {
        return false;
    }
    if new.len() < n {
        return false;
    }
    put_bytes(new, 0, &old[..n]);
    true
}

// Writes information and what closes it, its check and CC, from place at on.
fn put_field(t: &mut [u8], at: usize, info: &[u8]) -> usize
    requires { at + length info.now + 3 ≤ length t.old }
    ensures place { result ≡ at + length info.now + 3 }
    ensures bytes { t.new ≡ laid_at at (info.now ++ closing info.now) t.old }
{
    let end = put_bytes(t, at, info);
    let [high, low] = crc::check_of(info).to_be_bytes();
    put_bytes(t, end, &[high, low, CLOSING_BYTE])
}

// Writes the gap after a count and after a key, nine FF and two 00, from place at on.
fn put_gap(t: &mut [u8], at: usize) -> usize
    requires { at + gap_length ≤ length t.old }
    ensures place { result ≡ at + gap_length }
    ensures bytes { t.new ≡ laid_at at inner_gap t.old }
{
    let p = put_run(t, at, 9, 0xFF);
    put_run(t, p, 2, 0x00)
}

// Writes a block with the information from place at on.
fn put_block(t: &mut [u8], at: usize, info: &[u8]) -> usize
    requires { at + length info.now + 9 ≤ length t.old }
    ensures place { result ≡ at + length info.now + 9 }
    ensures bytes { t.new ≡ laid_at at (written_block info.now) t.old }
{
    let p = put_bytes(t, at, &PLAIN_OPENING);
    put_field(t, p, info)
}

// Writes the key and the gap before it from place at on; nothing if KL = 0.
#[tactic(auto, using(crate::proofs::Blocks::key_size_none, crate::proofs::Blocks::key_size_some, format::proofs::Cells::Opening::unmarked_below))]
fn put_key(t: &mut [u8], at: usize, key: &[u8]) -> usize
    requires { at + key_size (length key.now) ≤ length t.old }
    ensures place { result ≡ at + key_size (length key.now) }
    ensures bytes { t.new ≡ laid_at at (written_key key.now) t.old }
    ensures unmarked { unmarked key.now ≡ true }
{
    if key.len() == 0 {
        return at;
    }
    let p = put_gap(t, at);
    put_block(t, p, key)
}

// Writes the data block from place at on; the opening and one 00 if DL = 0.
#[tactic(auto, using(crate::proofs::Blocks::data_size_none, crate::proofs::Blocks::data_size_some, format::proofs::Cells::Opening::unmarked_below))]
fn put_data(t: &mut [u8], at: usize, body: &[u8]) -> usize
    requires { at + data_size (length body.now) ≤ length t.old }
    ensures place { result ≡ at + data_size (length body.now) }
    ensures bytes { t.new ≡ laid_at at (written_data body.now) t.old }
    ensures unmarked { unmarked body.now ≡ true }
{
    if body.len() == 0 {
        let p = put_bytes(t, at, &PLAIN_OPENING);
        return put_run(t, p, 1, 0x00);
    }
    put_block(t, at, body)
}

// Writes the bytes of a count's opening over the front.
fn put_opening(t: &mut [u8], first: bool) -> usize
    requires { opening_length first ≤ length t.old }
    ensures place { result ≡ opening_length first }
    ensures bytes { t.new ≡ laid_at 0 (bytes_of (count_opening first)) t.old }
{
    if first {
        return put_bytes(t, 0, &PLAIN_OPENING);
    }
    put_bytes(t, 0, &MARKED_OPENING)
}

// Writes the marks of a sector of n bytes over the front: only the second and third FF of a later count's opening are marked.
fn put_marks(m: &mut [u8], first: bool, n: usize)
    requires first_bound { opening_length first ≤ n }
    requires n_in_bounds { n ≤ length m.old }
    ensures { m.new ≡ laid_at 0 (marks_of (count_opening first) ++ replicate (n - opening_length first) 0) m.old }
{
    if first {
        put_run(m, 0, n, 0);
        return;
    }
    let p = put_bytes(m, 0, &MARKED_OPENING_MARKS);
    put_run(m, p, n - p, 0);
}

// Writes the bytes of a sector's count over the front.
fn put_count(t: &mut [u8], x: Sector) -> usize
    requires key_len_bound { length x.key.now ≤ 255 }
    requires body_len_bound { length x.body.now ≤ 65535 }
    requires count_tail_in_bounds { opening_length x.first + count_tail ≤ length t.old }
    ensures place { result ≡ opening_length x.entry.first + count_tail }
    ensures bytes { t.new ≡ laid_at 0 (count_bytes (as_sector x.entry)) t.old }
{
    let p = put_opening(t, x.first);
    let kl = x.key.len() as u8;
    let dl = x.body.len() as u16;
    let [c1, c2] = x.cylinder.to_be_bytes();
    let [h1, h2] = x.head.to_be_bytes();
    let [d1, d2] = dl.to_be_bytes();
    put_field(t, p, &[x.flag, c1, c2, h1, h2, x.number, kl, d1, d2])
}

// Writes the bytes of a sector over the front: count, key and data block, with the gaps before the last two.
#[tactic(auto, unfolding(format::specs::Written::sector_size))]
fn put_sector(t: &mut [u8], x: Sector)
    requires key_len_bound { length x.key.now ≤ 255 }
    requires body_len_bound { length x.body.now ≤ 65535 }
    requires body_in_bounds { sector_size x.first (length x.key.now) (length x.body.now) ≤ length t.old }
    ensures bytes { t.new ≡ laid_over (bytes_of (written_sector (as_sector x.entry))) t.old }
    ensures unmarked { (unmarked x.entry.key.now ≡ true) × (unmarked x.entry.body.now ≡ true) }
{
    let p = put_count(t, x);
    let p = put_key(t, p, x.key);
    let p = put_gap(t, p);
    put_data(t, p, x.body);
}

// Writes a sector over the front of both parts, where its content is within the rule and it fits in both; else nothing is written.
// Stays as it is: what may not change (the clauses say by this bool, laid_if, what is written).
#[tactic(auto, using(crate::proofs::Sectors::content_bounds), unfolding(format::specs::Written::sector_size))]
pub fn write_sector(track: &mut [u8], marks: &mut [u8], x: Sector) -> bool
    ensures answer { result ≡ sector_fits (as_sector x.entry) (length track.old) (length marks.old) }
    ensures bytes { track.new ≡ laid_if result (bytes_of (written_sector (as_sector x.entry))) track.old }
    ensures marks { marks.new ≡ laid_if result (marks_of (written_sector (as_sector x.entry))) marks.old }
{
    if !content_right(x.key, x.body) {
        return false;
    }
    let n = sector_size(x.first, x.key.len() as u8, x.body.len() as u16);
    if track.len() < n {
        return false;
    }
    if marks.len() < n {
        return false;
    }
    put_sector(track, x);
    put_marks(marks, x.first, n);
    true
}

// Writes the bytes of home, with the gaps before and after it, over the front.
fn put_head(t: &mut [u8], flag: u8, cylinder: u16, head: u16)
    requires { head_length ≤ length t.old }
    ensures { t.new ≡ laid_at 0 (written_head flag (address_of cylinder head)) t.old }
{
    let p = put_run(t, 0, INDEX_GAP, 0);
    let [c1, c2] = cylinder.to_be_bytes();
    let [h1, h2] = head.to_be_bytes();
    let p = put_block(t, p, &[flag, c1, c2, h1, h2]);
    put_run(t, p, GAP, 0);
}

// Writes home, with the gaps before and after it, over the front of both parts, where both are long enough; else nothing is written.
// Stays as it is: what may not change (the clauses say by this bool, laid_if, what is written).
pub fn write_head(track: &mut [u8], marks: &mut [u8], flag: u8, cylinder: u16, head: u16) -> bool
    ensures answer { result ≡ both_fit head_length (length track.old) (length marks.old) }
    ensures bytes { track.new ≡ laid_if result (bytes_of (written_head flag (address_of cylinder head))) track.old }
    ensures marks { marks.new ≡ laid_if result (marks_of (written_head flag (address_of cylinder head))) marks.old }
{
    if track.len() < HEAD {
        return false;
    }
    if marks.len() < HEAD {
        return false;
    }
    put_head(track, flag, cylinder, head);
    put_run(marks, 0, HEAD, 0);
    true
}
