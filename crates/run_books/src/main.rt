// Books from standard input, each after its length in two bytes: the check's number, and of a sound book its banks, streams and
// day number, and whether it is the same after it was read and written again.
#![tactic(auto)]

use std::io;
use std::io::Read;

// Whether the first n bytes of a buffer are a book.
fn same(a: &[u8], n: usize, b: &[u8]) -> bool {
    n <= a.len() && &a[..n] == b
}

// The line of a sound book.
fn tell_sound(line: &mut [u8], text: &[u8]) {
    let mut streams = [0u64; 16];
    let mut codes = [0u64; 64];
    let mut flags = [0u64; 64];
    let mut balances = [0u64; 64];
    let mut sublimits = [0u64; 64];
    let Ok(b) = book_read::read(
        text,
        &mut streams,
        &mut codes,
        &mut flags,
        &mut balances,
        &mut sublimits,
    ) else {
        return;
    };
    text_put::digits(line, 3, b.banks as u64, 2);
    text_put::digits(line, 6, b.streams as u64, 2);
    text_put::digits(line, 9, b.day, 5);
    let mut out = [0u8; 2560];
    let Ok(n) = book_write::write(&mut out, b, &streams, &codes, &flags, &balances, &sublimits)
    else {
        return;
    };
    if same(&out, n, text) {
        text_put::bytes(line, 15, b"same");
    }
}

fn tell(rt: &impl Print, text: &[u8]) -> io::Result<()> {
    let mut line = [b' '; 20];
    line[19] = b'\n';
    match book_read::check(text) {
        Ok(()) => {
            text_put::digits(&mut line, 0, 0, 2);
            tell_sound(&mut line, text);
            rt.write_all(&line)
        }
        Err(f) => {
            text_put::digits(&mut line, 0, f.number(), 2);
            rt.write_all(&line)
        }
    }
}

// One book of the length of a buffer.
fn tell_read(rt: &impl Print, from: &mut impl Read, text: &mut [u8]) -> io::Result<()> {
    cli_files::take_all(from, text)?;
    tell(rt, text)
}

// One book, if there is one more.
fn tell_next(rt: &impl Print, from: &mut impl Read) -> io::Result<bool> {
    let mut head = [0u8; 2];
    if !cli_files::take_all(from, &mut head)? {
        return Ok(false);
    }
    let n = usize::from(u16::from_le_bytes(head));
    let mut text = [0u8; 4096];
    let Some(book) = text.get_mut(..n) else {
        return Ok(false);
    };
    tell_read(rt, from, book)?;
    Ok(true)
}

fn main(rt: HostRuntime) -> io::Result<()> {
    for _ in 0..1000 {
        if !tell_next(&rt, &mut rt.stdin())? {
            return Ok(());
        }
    }
    Ok(())
}
