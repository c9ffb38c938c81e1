// The lines of a script of any length, one by one.
use crate::Console;
use std::io::Read;

// What has been read of the script and not been taken yet: from a place of the buffer to another.
#[derive(Clone, Copy)]
pub struct Ahead {
    pub at: usize,
    pub end: usize,
}

// What is kept of a line: so many bytes, and whether it has more than the buffer.
#[derive(Clone, Copy)]
pub struct Kept {
    pub n: usize,
    pub is_long: bool,
}

pub fn nothing_ahead() -> Ahead {
    Ahead { at: 0, end: 0 }
}

// Reads on where nothing is ahead; still nothing is ahead at the end of the script.
fn read_ahead(
    console: &Console,
    name: &[u8],
    from: &mut impl Read,
    buf: &mut [u8],
    ahead: Ahead,
) -> Ahead {
    if ahead.at < ahead.end {
        return ahead;
    }
    match from.read(buf) {
        Ok(end) => Ahead { at: 0, end },
        Err(why) => {
            crate::unreadable(console, name, &why);
            nothing_ahead()
        }
    }
}

// Keeps more bytes of a line behind those that it has. Bytes that do not fit are left out.
fn keep(line: &mut [u8], kept: Kept, more: &[u8]) -> Kept {
    let at = kept.n.min(line.len());
    let n = more.len().min(line.len() - at);
    line[at..at + n].copy_from_slice(&more[..n]);
    Kept {
        n: at + n,
        is_long: kept.is_long || n < more.len(),
    }
}

// The next line, if the script has one more, without its line feed, at the beginning of a buffer. The script is named where it cannot be read.
pub fn take(
    console: &Console,
    name: &[u8],
    from: &mut impl Read,
    buf: &mut [u8],
    line: &mut [u8],
    ahead: &mut Ahead,
) -> Option<Kept> {
    let mut taken = None;
    for _ in 0..u64::MAX {
        *ahead = read_ahead(console, name, from, buf, *ahead);
        let Some(more) = buf.get(ahead.at..ahead.end) else {
            return taken;
        };
        if more.is_empty() {
            return taken;
        }
        let kept = taken.unwrap_or(Kept {
            n: 0,
            is_long: false,
        });
        if let Some(n) = more.iter().position(|&b| b == b'\n') {
            ahead.at += n + 1;
            return Some(keep(line, kept, &more[..n]));
        }
        ahead.at = ahead.end;
        taken = Some(keep(line, kept, more));
    }
    taken
}
