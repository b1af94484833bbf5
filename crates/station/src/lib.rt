// The calls of the C interface: plain numbers and byte slices in, one number of 64 bits out. `station_c` exports them.
#![tactic(auto)]

ghost use Rattle.std.specs.Prelude.{◌≡◌, ◌+◌, ◌*◌, ◌%◌, ◌<◌, ◌≤◌};
ghost use Rattle.format.specs.Answer.{as_answer, as_refusal, given};
ghost use Rattle.reader.specs.Finding.{as_visited, as_part, judged_part};
ghost use Rattle.reader.specs.Pairing.{as_paired};
ghost use Rattle.station.specs.Packed.{packed_answer, packed_bounds, packed_part, packed_paired, packed_visited, packed_visit, numbered_visit};

pub mod bit_cells;
pub mod cylinders;
pub mod reading;
pub mod writing;

use format::{Answer, Refusal};
use reader::{Paired, Part, Visited};

// Stays as it is: the C interface, whose results have these fields at these bits.
// A refusal: bits 0 to 7 number, 8 and 9 second number, 16 to 31 place.
#[tactic(auto, unfolding(crate::specs::Packed::packed_answer))]
fn packed_refusal(e: Refusal) -> u64
    ensures value { result ≡ packed_answer (as_refusal e) }
    ensures upper_bound { result ≤ 0xFFFFFFFF }
{
    let a = Answer::from(e);
    let fault = (a.fault % 4) as u64;
    let place = (a.place % 65536) as u64;
    a.number as u64 + fault * 256 + place * 65536
}

// An answer: 0 where the call is done, else its refusal.
#[tactic(auto, unfolding(crate::specs::Packed::packed_answer))]
fn packed_answer(x: Result<(), Refusal>) -> u64
    ensures { result ≡ packed_answer (as_answer x) }
{
    match x {
        Ok(()) => 0,
        Err(e) => packed_refusal(e),
    }
}

// An answer, and from bit 32 on the number that is handed back, of which what is below the limit is kept.
#[tactic(auto, unfolding(crate::specs::Packed::packed_answer))]
fn packed_given(x: Result<usize, Refusal>, limit: usize) -> u64
    requires { (0 < limit) × (limit ≤ 0x100000000) }
    ensures { result ≡ packed_answer (as_answer x) + given x % limit * 0x100000000 }
{
    match x {
        Ok(n) => (n % limit) as u64 * 0x100000000,
        Err(e) => packed_refusal(e),
    }
}

// The start of a part in bits 32 to 47 and its size in bits 48 to 63.
#[tactic(auto, unfolding(crate::specs::Packed::packed_bounds))]
fn packed_bounds(x: Part) -> u64
    ensures value { result ≡ packed_bounds (as_part x) }
    ensures upper_bound { result ≤ 0xFFFFFFFF00000000 }
{
    let start = (x.start % 65536) as u64;
    let size = (x.size % 65536) as u64;
    start * 0x100000000 + size * 0x1000000000000
}

// A part that is found, or its refusal.
#[tactic(auto, unfolding(crate::specs::Packed::packed_part))]
fn packed_part(x: Result<Part, Refusal>) -> u64
    ensures value { result ≡ packed_part (judged_part x) }
    ensures upper_bound { result ≤ 0xFFFFFFFF00000000 }
{
    match x {
        Ok(part) => packed_bounds(part),
        Err(e) => packed_refusal(e),
    }
}

// The same of two tracks: bit 15 is 1 where it speaks of the second.
#[tactic(auto, unfolding(crate::specs::Packed::packed_paired))]
fn packed_paired(x: Paired) -> u64
    ensures { result ≡ packed_paired (as_paired x) }
{
    let part = packed_part(x.outcome);
    if x.second {
        return 32768 + part;
    }
    part
}

// Stays as it is: the C interface, whose results have these fields at these bits.
// A candidate: bits 8 to 15 flag, 16 to 31 place, 32 to 39 S, 40 to 47 KL, 48 to 63 DL.
#[tactic(auto, unfolding(crate::specs::Packed::packed_visited))]
fn packed_visited(v: Visited) -> u64
    ensures { result ≡ packed_visited (as_visited v) }
{
    let place = (v.place % 65536) as u64;
    let key = (v.key_length % 256) as u64;
    let data = (v.data_length % 65536) as u64;
    let low = v.flag as u64 * 256 + place * 65536;
    low + v.number as u64 * 0x100000000 + key * 0x10000000000 + data * 0x1000000000000
}

// A step: the candidate that it comes to, or the number of its answer alone, whatever the numbers of that answer are.
#[tactic(auto, unfolding(crate::specs::Packed::packed_visit))]
pub fn packed_visit(x: Result<Visited, Answer>) -> u64
    ensures { result ≡ packed_visit (numbered_visit x) }
{
    match x {
        Ok(v) => packed_visited(v),
        Err(a) => a.number as u64,
    }
}
