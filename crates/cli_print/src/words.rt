// Codes and letters, as they are told.
use codes::Code;
use std::fmt;
use std::fmt::Write;

// The four characters of a bank or a stream.
#[derive(Clone, Copy)]
pub struct ShortCode(pub u64);

impl fmt::Display for ShortCode {
    fn fmt<W: fmt::Write>(&self, f: &mut fmt::Formatter<W>) -> fmt::Result {
        for i in 0..4 {
            f.write_char(char::from(codes::short_byte(self.0, i)))?;
        }
        Ok(())
    }
}

// The characters of a BIN or a reference.
#[derive(Clone, Copy)]
pub struct LongCode(pub Code);

impl fmt::Display for LongCode {
    fn fmt<W: fmt::Write>(&self, f: &mut fmt::Formatter<W>) -> fmt::Result {
        for i in 0..self.0.len() {
            f.write_char(char::from(self.0.byte(i)))?;
        }
        Ok(())
    }
}

fn shown(b: u8) -> char {
    if b == b' ' { '-' } else { char::from(b) }
}

// The four letters of a debit, a space as a dash.
#[derive(Clone, Copy)]
pub struct Letters(pub u64);

impl fmt::Display for Letters {
    fn fmt<W: fmt::Write>(&self, f: &mut fmt::Formatter<W>) -> fmt::Result {
        for i in 0..4 {
            f.write_char(shown(codes::short_byte(self.0, i)))?;
        }
        Ok(())
    }
}

// An ESA letter, a space as a dash.
#[derive(Clone, Copy)]
pub struct EsaLetter(pub u64);

impl fmt::Display for EsaLetter {
    fn fmt<W: fmt::Write>(&self, f: &mut fmt::Formatter<W>) -> fmt::Result {
        f.write_str(match self.0 {
            32 => "-",
            65 => "A",
            68 => "D",
            80 => "P",
            _ => "?",
        })
    }
}
