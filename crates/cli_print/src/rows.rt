// What is to be printed with one write, such as a line.
ghost use Rattle.std.specs.Prelude.{◌≤◌};

use cli_files::Console;
use std::fmt;
use std::fmt::{Display, Write};

// So many bytes are printed with one write.
const WIDTH: usize = 256;

// The first n bytes. Where a row is full, it is printed and begins anew.
#[derive(Clone, Copy)]
pub struct Row<'a> {
    console: &'a Console,
    bytes: [u8; WIDTH],
    n: usize,
    ghost inside: { n ≤ 256 },
}

pub fn begin(console: &Console) -> Row<'_> {
    Row {
        console,
        bytes: [0u8; WIDTH],
        n: 0,
    }
}

impl Row<'_> {
    fn byte(&mut self, b: u8) {
        if self.n == WIDTH {
            self.print();
            self.n = 0;
        }
        self.bytes[self.n] = b;
        self.n += 1;
    }

    // Bytes that need not be text.
    pub fn text(&mut self, bytes: &[u8]) {
        for &b in bytes {
            self.byte(b);
        }
    }

    pub fn put(&mut self, what: impl Display + Drop) {
        let _ = write!(self, "{what}");
    }

    pub fn print(&self) {
        crate::text(self.console, &self.bytes[..self.n]);
    }

    pub fn print_line(&mut self) {
        self.text(b"\n");
        self.print();
    }
}

impl fmt::Write for Row<'_> {
    fn write_str(&mut self, s: &str) -> fmt::Result {
        self.text(s.as_bytes());
        Ok(())
    }
}
