// Writing the one file of a cylinder from lent slices.
#![tactic(auto)]

ghost use Rattle.std.specs.Prelude.{◌≡◌, true, ◌++◌, ◌*◌, ◌≤◌, length};
ghost use Rattle.base.specs.Laid.{laid_over};
ghost use Rattle.format.specs.Answer.{as_answer, given};
ghost use Rattle.format.specs.Judged.{answer_of};
ghost use Rattle.cylinder.specs.Cylinder.{cylinder_lent};
ghost use Rattle.cylinder.specs.Packed.{packed};
ghost use Rattle.cylinder.specs.File.{two_bytes, four_bytes, header_length, entry_length, stored_size, header, table, stored_tracks, cylinder_file};
ghost use Rattle.cylinder.specs.Writing.{write_cylinder, file_bytes};
ghost use Rattle.cylinder_writer.specs.Writing.{lent};

use cylinder_layout::{ENTRY, HEADER, Lengths};
use format::Refusal;

mod packing;

// Whether the cylinder is lent within the rule.
#[tactic(auto, unfolding(cylinder::specs::Cylinder::cylinder_lent))]
fn cylinder_lent(tracks: &[u8], marks: &[u8], lengths: Lengths<'_>) -> bool
    ensures { result ≡ cylinder_lent (lent tracks.now marks.now lengths.entry.items.now) }
{
    if !lengths.are_right() {
        return false;
    }
    let sum = lengths.total();
    if tracks.len() != sum {
        return false;
    }
    if marks.len() != sum {
        return false;
    }
    search::marks_legal(marks)
}

// Writes the header of n tracks over the front of out.
fn put_header(n: usize, out: &mut [u8])
    requires { (n ≤ 10) × (header_length ≤ length out.old) }
    ensures { out.new ≡ laid_over (header n) out.old }
{
    let [high, low] = (n as u16).to_be_bytes();
    out[..HEADER].copy_from_slice(&[high, low, 0, 0]);
}

// Writes a table entry over the front of out.
fn put_entry(l: u16, offset: u32, out: &mut [u8])
    requires { entry_length ≤ length out.old }
    ensures { out.new ≡ laid_over (two_bytes l ++ four_bytes offset) out.old }
{
    out[..2].copy_from_slice(&l.to_be_bytes());
    out[2..ENTRY].copy_from_slice(&offset.to_be_bytes());
}

// Writes the table over the front of out.
fn put_table(lengths: Lengths<'_>, out: &mut [u8])
    requires { length lengths.items.now * entry_length ≤ length out.old }
    ensures { out.new ≡ laid_over (table lengths.entry.items.now (length lengths.entry.items.now)) out.old }
{
    let mut offset = lengths.table_end();
    for (k, l) in lengths.items.iter().enumerate() {
        put_entry(*l, offset as u32, &mut out[k * ENTRY..]);
        offset += cylinder_layout::stored_size(*l);
    }
}

// Writes a track and its packed marks over the front of out.
fn put_track(track: &[u8], marks: &[u8], out: &mut [u8])
    requires { (length marks.now ≡ length track.now) × (length track.now ≤ 65535) × (stored_size (length track.now) ≤ length out.old) }
    ensures { out.new ≡ laid_over (track.now ++ packed marks.now) out.old }
{
    let n = track.len();
    out[..n].copy_from_slice(track);
    packing::pack(marks, &mut out[n..]);
}

// Writes all tracks with their packed marks over the front of out.
#[tactic(auto, using(crate::proofs::Pieces::track_fits))]
fn put_tracks(tracks: &[u8], marks: &[u8], lengths: Lengths<'_>, out: &mut [u8])
    requires lengths_value { cylinder_lent (lent tracks.now marks.now lengths.items.now) ≡ true }
    requires lengths_in_bounds { length (stored_tracks (lent tracks.now marks.now lengths.items.now)) ≤ length out.old }
    ensures { out.new ≡ laid_over (stored_tracks (lent tracks.now marks.now lengths.entry.items.now)) out.old }
{
    let mut at = 0;
    let mut p = 0;
    for l in lengths.items {
        let to = at + usize::from(*l);
        put_track(&tracks[at..to], &marks[at..to], &mut out[p..]);
        p += cylinder_layout::stored_size(*l);
        at = to;
    }
}

// Writes the file of a cylinder over the front of the buffer: its header, its table and its tracks.
#[tactic(auto, using(cylinder::proofs::Sizes::length_parts))]
fn put_file(tracks: &[u8], marks: &[u8], lengths: Lengths<'_>, file: &mut [u8])
    requires lengths_value { cylinder_lent (lent tracks.now marks.now lengths.items.now) ≡ true }
    requires lengths_in_bounds { length (cylinder_file (lent tracks.now marks.now lengths.items.now)) ≤ length file.old }
    ensures { file.new ≡ laid_over (cylinder_file (lent tracks.now marks.now lengths.entry.items.now)) file.old }
{
    let first = lengths.table_end();
    put_header(lengths.items.len(), file);
    put_table(lengths, &mut file[HEADER..]);
    put_tracks(tracks, marks, lengths, &mut file[first..]);
}

// Writes the file of a cylinder and hands back its length: a refusal leaves every byte as it was.
#[tactic(auto, using(base::proofs::Filling::over_nothing, crate::proofs::Pieces::size_is), unfolding(cylinder::specs::Writing::write_cylinder))]
pub fn write_cylinder(
    tracks: &[u8],
    marks: &[u8],
    lengths: &[u16],
    file: &mut [u8],
) -> Result<usize, Refusal>
    ensures answer { as_answer result ≡ answer_of (write_cylinder (lent tracks.now marks.now lengths.now) (length file.old)) }
    ensures size { given result ≡ length (file_bytes (write_cylinder (lent tracks.now marks.now lengths.now) (length file.old))) }
    ensures bytes { file.new ≡ laid_over (file_bytes (write_cylinder (lent tracks.now marks.now lengths.now) (length file.old))) file.old }
{
    let lengths = Lengths::try_from(lengths)?;
    if !cylinder_lent(tracks, marks, lengths) {
        return Err(Refusal::LentWrong);
    }
    let size = lengths.file_length();
    if file.len() < size {
        return Err(Refusal::BufferTooShort);
    }
    put_file(tracks, marks, lengths, file);
    Ok(size)
}
