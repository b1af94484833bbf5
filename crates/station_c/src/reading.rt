// The calls that read a track: Accept, List, Find, Pair find and Walk.
ghost use Rattle.std.specs.Prelude.{◌≡◌, length};
ghost use Rattle.format.specs.Judged.{answer_of, then};
ghost use Rattle.format.specs.Accept.{accept};
ghost use Rattle.format.specs.Listing.{list};
ghost use Rattle.format.specs.Find.{find};
ghost use Rattle.format.specs.Walk.{step};
ghost use Rattle.reader.specs.Finding.{wanted_by};
ghost use Rattle.rows.specs.Rows.{filled_rows};
ghost use Rattle.station.specs.Packed.{packed_answer, packed_listing, packed_part, packed_paired, packed_visit, pair_find_by};

// Accept: the answer for the whole track.
#[unsafe(no_mangle)]
pub extern "C" fn iso3561_accept(track: &[u8], marks: &[u8]) -> u64
    ensures { result ≡ packed_answer (answer_of (accept track.now marks.now)) }
{
    station::reading::iso3561_accept(track, marks)
}

// List: fills the first rows with the sectors of an accepted track, and gives their number; every other row stays, and a refusal writes nothing.
#[unsafe(no_mangle)]
pub extern "C" fn iso3561_list(track: &[u8], marks: &[u8], rows: &mut [[u16; 8]]) -> u64
    ensures result { result ≡ packed_listing (list (length rows.old) track.now marks.now) }
    ensures rows { rows.new ≡ filled_rows (list (length rows.old) track.now marks.now) rows.old }
{
    station::reading::iso3561_list(track, marks, rows)
}

// Find: where the part of sector S lies, 0 the key and 1 the data; 14 for any other part, before all else.
#[unsafe(no_mangle)]
pub extern "C" fn iso3561_find(track: &[u8], marks: &[u8], sector: u8, part: u8) -> u64
    ensures { result ≡ packed_part (then (wanted_by part) (λ w. find sector w track.now marks.now)) }
{
    station::reading::iso3561_find(track, marks, sector, part)
}

// Pair find: the same of two tracks, by the flag of the first.
#[unsafe(no_mangle)]
pub extern "C" fn iso3561_pair_find(
    track: &[u8],
    marks: &[u8],
    second: &[u8],
    second_marks: &[u8],
    sector: u8,
    part: u8,
) -> u64
    ensures { result ≡ packed_paired (pair_find_by sector (wanted_by part) track.now marks.now second.now second_marks.now) }
{
    station::reading::iso3561_pair_find(track, marks, second, second_marks, sector, part)
}

// Walk: the first candidate whose opening stands at place `from` or later.
#[unsafe(no_mangle)]
pub extern "C" fn iso3561_walk(track: &[u8], marks: &[u8], from: u64) -> u64
    ensures { result ≡ packed_visit (step from track.now marks.now) }
{
    station::reading::iso3561_walk(track, marks, from)
}
