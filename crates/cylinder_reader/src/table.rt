// The numbers of a cylinder's file, and the table of its tracks.
ghost use Rattle.std.specs.Prelude.{◌≡◌, ◌+◌, ◌≤◌, length, take};
ghost use Rattle.cylinder.specs.File.{table_end};
ghost use Rattle.cylinder.specs.Reading.{two_bytes_at, four_bytes_at, track_count_in, length_in, offset_in};
ghost use Rattle.cylinder_reader.specs.Reading.{lengths_in};

use cylinder_layout::{ENTRY, HEADER, TRACKS};

// The number in the two bytes from place p on.
#[tactic(auto, unfolding(cylinder::specs::Reading::two_bytes_at))]
pub(crate) fn two_bytes_at(file: &[u8], p: usize) -> u16
    requires { p + 2 ≤ length file.now }
    ensures { result ≡ two_bytes_at file.now p }
{
    u16::from_be_bytes([file[p], file[p + 1]])
}

// The number in the four bytes from place p on.
#[tactic(auto, unfolding(cylinder::specs::Reading::two_bytes_at, cylinder::specs::Reading::four_bytes_at))]
fn four_bytes_at(file: &[u8], p: usize) -> u32
    requires { p + 4 ≤ length file.now }
    ensures { result ≡ four_bytes_at file.now p }
{
    u32::from_be_bytes([file[p], file[p + 1], file[p + 2], file[p + 3]])
}

// L of track k, as the table has it.
#[tactic(auto, unfolding(cylinder::specs::Reading::length_in))]
fn length_in(file: &[u8], k: usize) -> u16
    requires { table_end (k + 1) ≤ length file.now }
    ensures { result ≡ length_in file.now k }
{
    two_bytes_at(file, HEADER + k * ENTRY)
}

// The offset of track k, as the table has it.
#[tactic(auto, unfolding(cylinder::specs::Reading::offset_in))]
pub(crate) fn offset_in(file: &[u8], k: usize) -> usize
    requires { table_end (k + 1) ≤ length file.now }
    ensures { result ≡ offset_in file.now k }
{
    four_bytes_at(file, HEADER + k * ENTRY + 2) as usize
}

// The Ls of the table, and 0 behind them.
pub(crate) fn lengths_in(file: &[u8], n: usize) -> [u16; TRACKS]
    requires n_value { n ≡ track_count_in file.now }
    requires n_bound { (n ≤ 10) × (table_end n ≤ length file.now) }
    ensures { take n result ≡ lengths_in file.now }
{
    let mut lengths = [0; TRACKS];
    for k in 0..n {
        lengths[k] = length_in(file, k);
    }
    lengths
}
