// List into rows of eight numbers of 16 bits, the form in which the records reach C.
#![tactic(auto)]

ghost use Rattle.std.specs.Prelude.{◌≡◌, ◌≤◌, ◌%◌, IfOk, length};
ghost use Rattle.format.specs.Answer.{as_answer, given};
ghost use Rattle.format.specs.Judged.{answer_of};
ghost use Rattle.format.specs.Listing.{list};
ghost use Rattle.listing.specs.Filling.{records_of};
ghost use Rattle.rows.specs.Rows.{filled_rows, low_bits};

use format::Refusal;
use listing::{MOST_SECTORS, Sector};

// The low 16 bits of a number.
// Stays as it is: a bare `as u16` is proved to lose nothing, and `low_bits` speaks of any number.
fn low(n: usize) -> u16
    ensures { result ≡ n % 65536 }
{
    (n % 65536) as u16
}

// A record as a row: flag, S, KL, DL, the key's place, the data's place, end and gap.
fn row_of(x: &Sector) -> [u16; 8]
    ensures { result ≡ low_bits x.now }
{
    [
        u16::from(x.flag),
        u16::from(x.number),
        low(x.key_length),
        low(x.data_length),
        low(x.key_place),
        low(x.data_place),
        low(x.end),
        low(x.gap),
    ]
}

// Fills the first rows with the sectors of an accepted track from left to right, and returns how many; every other row stays.
pub fn list_rows(track: &[u8], marks: &[u8], rows: &mut [[u16; 8]]) -> Result<usize, Refusal>
    ensures answer { as_answer result ≡ answer_of (list (length rows.old) track.now marks.now) }
    ensures count { given result ≡ length (records_of (list (length rows.old) track.now marks.now)) }
    ensures count_fits { IfOk result (λ k. k ≤ length rows.old) }
    ensures rows { rows.new ≡ filled_rows (list (length rows.old) track.now marks.now) rows.old }
{
    if rows.len() < MOST_SECTORS {
        return Err(Refusal::LentWrong);
    }
    let filled = listing::list_all(track, marks);
    let count = filled.listing?;
    // Stays as it is: tried over `rows.iter_mut().zip(..)`, behind which nothing is known of the rows, so the clause `rows` does not close.
    for (i, record) in filled.records[..count].iter().enumerate() {
        rows[i] = row_of(record);
    }
    Ok(count)
}
