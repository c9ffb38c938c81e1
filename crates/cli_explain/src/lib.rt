// Where and why a text breaks, in words on standard output.
#![tactic(auto)]

use cli_files::Console;
use cli_print::Row;
use std::fmt;
use std::fmt::Write;
use text_explain::{Fault, Tag, Tags, Told};

// So much of a line is shown.
const SHOWN: usize = 40;

// A tag, as it is told.
#[derive(Clone, Copy)]
struct Name(Tag);

impl fmt::Display for Name {
    fn fmt<W: fmt::Write>(&self, f: &mut fmt::Formatter<W>) -> fmt::Result {
        let text = self.0.text();
        for &b in text.iter().take(self.0.size()) {
            f.write_char(char::from(b))?;
        }
        Ok(())
    }
}

// How a line breaks the text, in words.
#[derive(Clone, Copy)]
pub struct Words(pub Fault);

impl fmt::Display for Words {
    fn fmt<W: fmt::Write>(&self, f: &mut fmt::Formatter<W>) -> fmt::Result {
        match self.0 {
            Fault::Missing(Tags::Ending) => f.write_str("the end of the text expected"),
            Fault::Missing(Tags::One(t)) => write!(f, "{} expected", Name(t)),
            Fault::Missing(Tags::Two(t, u)) => write!(f, "{} or {} expected", Name(t), Name(u)),
            Fault::Wrong(t) => write!(f, "{} has a wrong value", Name(t)),
            Fault::Unknown => f.write_str(":12: has another sub type"),
            Fault::AfterCredit => f.write_str(":113: may not stand after CR"),
        }
    }
}

// A byte of a line: what is not printable ASCII shows, and so do a quote and a backslash.
#[derive(Clone, Copy)]
struct Shown(u8);

impl fmt::Display for Shown {
    fn fmt<W: fmt::Write>(&self, f: &mut fmt::Formatter<W>) -> fmt::Result {
        match self.0 {
            b'\r' => f.write_str("\\r"),
            b'\n' => f.write_str("\\n"),
            b'"' => f.write_str("\\\""),
            b'\\' => f.write_str("\\\\"),
            b' '..=b'~' => f.write_char(char::from(self.0)),
            b => write!(f, "\\x{b:02x}"),
        }
    }
}

// What is shown of a line.
fn start_of(line: &[u8]) -> &[u8] {
    if SHOWN < line.len() {
        &line[..SHOWN]
    } else {
        line
    }
}

// A line in quotes, two dots behind one that is longer than what is shown.
#[derive(Clone, Copy)]
struct Quoted<'a>(&'a [u8]);

impl fmt::Display for Quoted<'_> {
    fn fmt<W: fmt::Write>(&self, f: &mut fmt::Formatter<W>) -> fmt::Result {
        let start = start_of(self.0);
        f.write_str("\"")?;
        for &b in start {
            write!(f, "{}", Shown(b))?;
        }
        f.write_str(if start.len() < self.0.len() {
            "\".."
        } else {
            "\""
        })
    }
}

// The line from a place on, up to its CR LF or to the end of the text.
fn put_line(row: &mut Row<'_>, s: &[u8], at: usize) {
    let end = text_scan::line_end(s, at, s.len()).unwrap_or(s.len());
    if let Some(line) = s.get(at..end) {
        row.put(Quoted(line));
    }
}

// What stands where the text breaks.
fn put_standing(row: &mut Row<'_>, s: &[u8], at: usize, fault: Fault) {
    match fault {
        Fault::Missing(_) if s.len() <= at => row.put(", and the text ends"),
        Fault::Missing(_) => {
            row.put(", not ");
            put_line(row, s, at);
        }
        _ => {
            row.put(", in ");
            put_line(row, s, at);
        }
    }
}

// A break on a line: where, why, and what stands there.
pub fn show_break(console: &Console, s: &[u8], at: usize, told: Told) {
    let mut row = cli_print::begin(console);
    row.put(format_args!("at byte {at}, line {}: {}", told.line, Words(told.fault)));
    put_standing(&mut row, s, at, told.fault);
    row.print_line();
}
