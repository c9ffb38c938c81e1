// Lines of numbers: reading them, and writing them.
ghost use Rattle.std.specs.Prelude.{◌≡◌, ◌≤◌, length};

use std::io;

// A number that is being read, and how many stand before it.
#[derive(Clone, Copy)]
pub struct Reading {
    pub value: u64,
    pub count: usize,
}

// One more byte: a digit goes on with the number, another byte ends it.
fn read_byte(reading: Reading, byte: u8, numbers: &mut [u64]) -> Reading {
    let value = reading.value;
    let count = reading.count;
    if chars::is_digit(byte) {
        if value < 100_000_000_000_000_000 {
            return Reading {
                value: value * 10 + chars::digit_value(byte),
                count,
            };
        }
        return reading;
    }
    if count < numbers.len() {
        numbers[count] = value;
        return Reading {
            value: 0,
            count: count + 1,
        };
    }
    reading
}

// The numbers of a text; answers how many.
pub fn read(text: &[u8], numbers: &mut [u64]) -> usize {
    let mut reading = Reading { value: 0, count: 0 };
    for &byte in text {
        reading = read_byte(reading, byte, numbers);
    }
    reading.count
}

// The first numbers of a row, in a line after a letter.
pub fn write(rt: &impl Print, letter: u8, row: &[u64], count: usize) -> io::Result<()> {
    let start = [letter];
    rt.write_all(&start)?;
    for number in row.iter().take(count) {
        print!(rt; " {number}")?;
    }
    rt.write_all(b"\n")
}
