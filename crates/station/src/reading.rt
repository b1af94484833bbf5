// The calls that read a track: Accept, List, Find, Pair find and Walk.
ghost use Rattle.std.specs.Prelude.{◌≡◌, length};
ghost use Rattle.format.specs.Judged.{answer_of, then};
ghost use Rattle.format.specs.Accept.{accept};
ghost use Rattle.format.specs.Listing.{list};
ghost use Rattle.format.specs.Find.{find};
ghost use Rattle.format.specs.Walk.{step};
ghost use Rattle.reader.specs.Finding.{judged_part, wanted_by};
ghost use Rattle.reader.specs.Pairing.{as_paired};
ghost use Rattle.rows.specs.Rows.{filled_rows};
ghost use Rattle.station.specs.Packed.{packed_answer, packed_listing, packed_part, packed_paired, packed_visit, pair_find_by};

use crate::{packed_answer, packed_given, packed_paired, packed_part, packed_visit};
use format::{Answer, Refusal};
use reader::{Paired, Part, Wanted};

// Accept: the answer for the whole track.
pub fn iso3561_accept(track: &[u8], marks: &[u8]) -> u64
    ensures { result ≡ packed_answer (answer_of (accept track.now marks.now)) }
{
    packed_answer(accepting::accept(track, marks))
}

// List: fills the first rows with the sectors of an accepted track, and gives their number; every other row stays, and a refusal writes nothing.
#[tactic(auto, unfolding(crate::specs::Packed::packed_count))]
pub fn iso3561_list(track: &[u8], marks: &[u8], rows: &mut [[u16; 8]]) -> u64
    ensures result { result ≡ packed_listing (list (length rows.old) track.now marks.now) }
    ensures rows { rows.new ≡ filled_rows (list (length rows.old) track.now marks.now) rows.old }
{
    packed_given(rows::list_rows(track, marks, rows), 65536)
}

// Find of the part that a number asks for: 14 for any other than 0 and 1, before all else.
fn find_by(track: &[u8], marks: &[u8], sector: u8, part: u8) -> Result<Part, Refusal>
    ensures { judged_part result ≡ then (wanted_by part) (λ w. find sector w track.now marks.now) }
{
    let wanted = Wanted::try_from(part)?;
    reader::find_part(track, marks, sector, wanted)
}

// Find: where the part of sector S lies, 0 the key and 1 the data; 14 for any other part, before all else.
pub fn iso3561_find(track: &[u8], marks: &[u8], sector: u8, part: u8) -> u64
    ensures { result ≡ packed_part (then (wanted_by part) (λ w. find sector w track.now marks.now)) }
{
    packed_part(find_by(track, marks, sector, part))
}

// Pair find of the part that a number asks for: 14 for any other than 0 and 1, which speaks of the first track.
#[tactic(auto, unfolding(crate::specs::Packed::pair_find_by))]
fn pair_find_by(
    track: &[u8],
    marks: &[u8],
    second: &[u8],
    second_marks: &[u8],
    sector: u8,
    part: u8,
) -> Paired
    ensures { as_paired result ≡ pair_find_by sector (wanted_by part) track.now marks.now second.now second_marks.now }
{
    match Wanted::try_from(part) {
        Ok(wanted) => reader::pair_find_part(track, marks, second, second_marks, sector, wanted),
        Err(refusal) => Paired {
            second: false,
            outcome: Err(refusal),
        },
    }
}

// Pair find: the same of two tracks, by the flag of the first.
pub fn iso3561_pair_find(
    track: &[u8],
    marks: &[u8],
    second: &[u8],
    second_marks: &[u8],
    sector: u8,
    part: u8,
) -> u64
    ensures { result ≡ packed_paired (pair_find_by sector (wanted_by part) track.now marks.now second.now second_marks.now) }
{
    packed_paired(pair_find_by(track, marks, second, second_marks, sector, part))
}

// Walk: the first candidate whose opening stands at place `from` or later.
pub fn iso3561_walk(track: &[u8], marks: &[u8], from: u64) -> u64
    ensures { result ≡ packed_visit (step from track.now marks.now) }
{
    packed_visit(reader::step_at(track, marks, from as usize).map_err(Answer::from))
}
