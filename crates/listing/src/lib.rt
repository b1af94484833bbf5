// List: an accepted track's sectors as records in a list that the caller lends.
#![tactic(auto)]

ghost use Rattle.std.specs.Prelude.{◌≡◌, ◌≤◌, IfOk, length, replicate};
ghost use Rattle.format.specs.Answer.{as_answer, given};
ghost use Rattle.format.specs.Judged.{answer_of};
ghost use Rattle.format.specs.Lent.{cells};
ghost use Rattle.format.specs.Listing.{most_sectors, list};
ghost use Rattle.listing.specs.Filling.{records_of, as_records, filled, record_at, judged_begun, begun, empty};

use format::Refusal;
use format::layout::HOME_TO_COUNT;

// No track holds more sectors; a list for fewer records is refused.
pub const MOST_SECTORS: usize = 67;

// A sector record: flag, S, KL, DL, the places of the information, the key's 0 where KL = 0, the place after the data block's last byte, and how many bytes of gap follow it.
#[derive(Clone, Copy, Default)]
pub struct Sector {
    pub flag: u8,
    pub number: u8,
    pub key_length: usize,
    pub data_length: usize,
    pub key_place: usize,
    pub data_place: usize,
    pub end: usize,
    pub gap: usize,
}

// A sector record, and the place at which the next count opens.
#[derive(Clone, Copy)]
pub struct SectorNext {
    pub sector: Sector,
    pub next: usize,
}

// What is settled before any record is filled: the number of sectors, and the place of sector 0's count.
#[derive(Clone, Copy)]
pub struct Begun {
    pub count: usize,
    pub first: usize,
}

// The record of the sector whose count opens at place p.
fn record_at(track: &[u8], marks: &[u8], p: usize) -> SectorNext
    ensures { result ≡ record_at (cells track.now marks.now) p }
{
    let s = sectors::sector_at(track, marks, p);
    let sector = Sector {
        flag: s.flag,
        number: s.number,
        key_length: s.key_length,
        data_length: s.data_length,
        key_place: s.key_place,
        data_place: s.data_place,
        end: s.end,
        gap: s.next.saturating_sub(s.end),
    };
    SectorNext {
        sector,
        next: s.next,
    }
}

// What is settled for a list of n: 1 for a list under 67 before anything else, then Accept's own answers.
fn begin(track: &[u8], marks: &[u8], n: usize) -> Result<Begun, Refusal>
    ensures result_value { judged_begun result ≡ begun n track.now marks.now }
    ensures count_fits { IfOk result (λ b. b.count ≤ n) }
{
    if n < MOST_SECTORS {
        return Err(Refusal::LentWrong);
    }
    let home = accepting::judge(track, marks)?;
    let first = home.place + HOME_TO_COUNT;
    let count = sectors::sector_count(track, marks, first);
    Ok(Begun { count, first })
}

// Fills the first records of the list with the sectors of an accepted track from left to right, and returns how many; every other record stays.
pub fn list(track: &[u8], marks: &[u8], out: &mut [Sector]) -> Result<usize, Refusal>
    ensures answer_value { as_answer result ≡ answer_of (list (length out.old) track.now marks.now) }
    ensures count_value { given result ≡ length (records_of (list (length out.old) track.now marks.now)) }
    ensures count_fits { IfOk result (λ k. k ≤ length out.old) }
    ensures out_after { as_records out.new ≡ filled (list (length out.old) track.now marks.now) (as_records out.old) }
{
    let Begun { count, first } = begin(track, marks, out.len())?;
    let mut at = first;
    for record in out[..count].iter_mut() {
        let x = record_at(track, marks, at);
        *record = x.sector;
        at = x.next;
    }
    Ok(count)
}

// The number of records that are filled, with all 67 of them.
#[derive(Clone, Copy)]
pub struct Filled {
    pub listing: Result<usize, Refusal>,
    pub records: [Sector; MOST_SECTORS],
}

// List into 67 empty records, which are handed back by value.
pub fn list_all(track: &[u8], marks: &[u8]) -> Filled
    ensures answer_value { as_answer result.listing ≡ answer_of (list most_sectors track.now marks.now) }
    ensures count_value { given result.listing ≡ length (records_of (list most_sectors track.now marks.now)) }
    ensures count_fits { IfOk result.listing (λ k. k ≤ most_sectors) }
    ensures records_value { as_records result.records ≡ filled (list most_sectors track.now marks.now) (as_records (replicate most_sectors empty)) }
{
    let mut records = [Sector::default(); MOST_SECTORS];
    let listing = list(track, marks, &mut records);
    Filled { listing, records }
}
