// The calls between the tracks of a cylinder and their one file.
ghost use Rattle.std.specs.Prelude.{◌≡◌, length};
ghost use Rattle.base.specs.Laid.{laid_over};
ghost use Rattle.cylinder.specs.Writing.{write_cylinder, file_bytes};
ghost use Rattle.cylinder.specs.Reading.{cylinder_read};
ghost use Rattle.cylinder_reader.specs.Reading.{read_into};
ghost use Rattle.cylinder_writer.specs.Writing.{lent};
ghost use Rattle.station.specs.Packed.{packed_reading, packed_writing};

use crate::packed_given;

// Reads the file of a cylinder: writes the tracks, their marks and their Ls; a refusal writes nothing.
#[tactic(auto, unfolding(crate::specs::Packed::packed_number))]
pub fn iso3561_cylinder_read(
    file: &[u8],
    tracks: &mut [u8],
    marks: &mut [u8],
    lengths: &mut [u16],
) -> u64
    ensures result { result ≡ packed_reading (read_into file.now tracks.old marks.old lengths.old) }
    ensures tracks { tracks.new ≡ laid_over (cylinder_read (read_into file.now tracks.old marks.old lengths.old)).tracks tracks.old }
    ensures marks { marks.new ≡ laid_over (cylinder_read (read_into file.now tracks.old marks.old lengths.old)).marks marks.old }
    ensures lengths { lengths.new ≡ laid_over (cylinder_read (read_into file.now tracks.old marks.old lengths.old)).lengths lengths.old }
{
    let read = cylinder_reader::read_cylinder(file, tracks, marks, lengths);
    packed_given(read, 0x100000000)
}

// Writes the file of a cylinder; a refusal writes nothing.
#[tactic(auto, unfolding(crate::specs::Packed::packed_number))]
pub fn iso3561_cylinder_write(tracks: &[u8], marks: &[u8], lengths: &[u16], file: &mut [u8]) -> u64
    ensures result { result ≡ packed_writing (write_cylinder (lent tracks.now marks.now lengths.now) (length file.old)) }
    ensures bytes { file.new ≡ laid_over (file_bytes (write_cylinder (lent tracks.now marks.now lengths.now) (length file.old))) file.old }
{
    let written = cylinder_writer::write_cylinder(tracks, marks, lengths, file);
    packed_given(written, 0x100000000)
}
