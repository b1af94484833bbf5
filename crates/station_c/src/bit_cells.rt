// The calls between the drive's bit cells and a track.
ghost use Rattle.std.specs.Prelude.{◌≡◌, length};
ghost use Rattle.format.specs.Judged.{answer_of, value_or};
ghost use Rattle.format.specs.Written.{leaves};
ghost use Rattle.bitcells.specs.FromCells.{from_cells};
ghost use Rattle.bitcells.specs.ToCells.{to_cells};
ghost use Rattle.station.specs.Packed.{packed_answer, packed_after, packed};

// From bit cells: writes the track and the marks; a refusal writes nothing.
#[unsafe(no_mangle)]
pub extern "C" fn iso3561_from_cells(bit_cells: &[u8], track: &mut [u8], marks: &mut [u8]) -> u64
    ensures { packed_after result track.new marks.new ≡ packed (leaves (from_cells bit_cells.now (length track.old) (length marks.old)) track.old marks.old) }
{
    station::bit_cells::iso3561_from_cells(bit_cells, track, marks)
}

// To bit cells: writes the cell bytes of the track; a refusal writes nothing.
#[unsafe(no_mangle)]
pub extern "C" fn iso3561_to_cells(track: &[u8], marks: &[u8], bit_cells: &mut [u8]) -> u64
    ensures answer { result ≡ packed_answer (answer_of (to_cells track.now marks.now (length bit_cells.old))) }
    ensures bytes { bit_cells.new ≡ value_or bit_cells.old (to_cells track.now marks.now (length bit_cells.old)) }
{
    station::bit_cells::iso3561_to_cells(track, marks, bit_cells)
}
