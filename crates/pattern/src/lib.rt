// The bit cells of one byte, as two cell bytes: what they stand for, and how they are made.
#![tactic(auto)]

ghost use Rattle.std.specs.Prelude.{◌≡◌, ◌≤◌, replicate};
ghost use Rattle.crc.specs.Check.{digits};
ghost use Rattle.pattern.specs.Pattern.{alternating, as_byte, first_cells, second_cells, clocks_for, data_cells, data_in, legal_pattern, mark_in};

// Whether two cell bytes are a legal pattern: all eight clocks, or FF without its first five.
pub fn legal_pattern(x: u8, y: u8) -> bool
    ensures { result ≡ legal_pattern x y }
{
    if x & 0xAA == 0xAA {
        return y & 0xAA == 0xAA;
    }
    if x != 0x55 {
        return false;
    }
    y == 0x7F
}

// The four data cells of a cell byte as a number.
fn data_half(x: u8) -> u8
    ensures { (result ≡ as_byte (data_cells (digits 8 x))) × (result ≤ 15) }
{
    x / 64 % 2 * 8 + x / 16 % 2 * 4 + x / 4 % 2 * 2 + x % 2
}

// The data byte of two cell bytes.
pub fn data_in(x: u8, y: u8) -> u8
    ensures { result ≡ data_in x y }
{
    data_half(x) * 16 + data_half(y)
}

// The mark of two cell bytes: 1 where a clock is missing.
pub fn mark_in(x: u8, y: u8) -> u8
    ensures { result ≡ mark_in x y }
{
    if x & 0xAA != 0xAA {
        return 1;
    }
    if y & 0xAA != 0xAA {
        return 1;
    }
    0
}

// The cell byte of the four low bits of a byte, with no clock.
fn half_cells(b: u8) -> u8
    ensures value { result ≡ as_byte (alternating (replicate 4 0) (digits 4 b)) }
    ensures upper_bound { result ≤ 0x55 }
{
    b / 8 % 2 * 64 + b / 4 % 2 * 16 + b / 2 % 2 * 4 + b % 2
}

// The first cell byte of a byte with its mark, which takes away all its four clocks.
pub fn first_cells(b: u8, mark: u8) -> u8
    ensures { result ≡ first_cells (clocks_for mark) b }
{
    let data = half_cells(b / 16);
    if mark == 0 {
        return 0xAA + data;
    }
    data
}

// The second cell byte of a byte with its mark, which takes away the first of its four clocks.
pub fn second_cells(b: u8, mark: u8) -> u8
    ensures { result ≡ second_cells (clocks_for mark) b }
{
    let data = half_cells(b);
    if mark == 0 {
        return 0xAA + data;
    }
    0x2A + data
}
