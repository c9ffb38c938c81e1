// Files that a program is given to read, and how it tells that something was not well.
#![tactic(auto)]

pub mod lines;
pub mod numbers;
pub mod paths;
pub mod whole;

ghost use Rattle.std.specs.Prelude.{◌≡◌, ◌≤◌, true, IfOk, IfSome, length};
ghost use Rattle.std.specs.Io.KnownBytes.{Consumes};

use std::cell::Cell;
use std::env::{Env, FillError};
use std::fmt::{Display, Write};
use std::fs::{Files, OpenOptions};
use std::io::{Error, ErrorKind, Input, Print, Read, Stderr, Stdout};
use std::{fmt, fs, io};

// Numbers of the system's errors.
pub(crate) const ENOENT: i32 = 2;

const EBADF: i32 = 9;

pub(crate) const EINVAL: i32 = 22;

pub(crate) const ENAMETOOLONG: i32 = 36;

pub(crate) const EILSEQ: i32 = 84;

// A line of a script and a column, both from 1 on. Line 0 is no place.
#[derive(Clone, Copy)]
pub struct Place {
    pub line: u64,
    pub column: u64,
}

// Standard output and standard error of a program, whether all that it printed was written, and how many things were not well so far.
#[derive(Drop)]
pub struct Console {
    output: Stdout,
    errors: Stderr,
    written: Cell<bool>,
    refusals: Cell<u64>,
    wrong_calls: Cell<u64>,
}

// A program has no exit status of its own. The script ./purmagheli opens this descriptor, and its own status is the greatest digit that it finds there.
const STATUS: &str = "/dev/fd/3";

impl Console {
    pub fn new(output: Stdout, errors: Stderr) -> Console {
        Console {
            output,
            errors,
            written: Cell::new(true),
            refusals: Cell::new(0),
            wrong_calls: Cell::new(0),
        }
    }

    // Writes a digit to the descriptor for each thing that was not well, where it is open. A program does so at its end.
    pub fn tell_status(&self, rt: &impl Files) {
        if let Ok(mut file) = OpenOptions::new().append(true).open(rt, STATUS) {
            put_digits(&mut file, b"1", self.refusals.get());
            put_digits(&mut file, b"2", self.wrong_calls.get());
        }
    }
}

fn put_digits(file: &mut impl io::Write, digit: &[u8], n: u64) {
    for _ in 0..n {
        let _ = file.write_all(digit);
    }
}

// Something was refused, or could not be read or written.
pub fn tell_refusal(console: &Console) {
    console
        .refusals
        .set(console.refusals.get().saturating_add(1));
}

// The program was called in a way that it does not know.
pub fn tell_wrong_call(console: &Console) {
    console
        .wrong_calls
        .set(console.wrong_calls.get().saturating_add(1));
}

// A text on standard error.
pub fn say(console: &Console, text: &[u8]) {
    let _ = console.errors.write_all(text);
}

// What is told on standard error.
pub fn tell(console: &Console, what: impl Display + Drop) {
    let _ = console.errors.print(what);
}

// Whether an argument of the program is this word, which has at most 16 bytes.
pub fn is_argument(rt: &impl Env, i: usize, name: &[u8]) -> bool {
    let mut word = [0u8; 16];
    match rt.arg(i, &mut word) {
        Ok(n) => &word[..n] == name,
        Err(_) => name.is_empty(),
    }
}

// How many arguments the program was started with, its own name among them.
pub fn argument_count(rt: &impl Env) -> usize {
    let mut none = [0u8; 0];
    for i in 0..usize::MAX {
        if let Err(FillError::NotPresent) = rt.arg(i, &mut none) {
            return i;
        }
    }
    usize::MAX
}

// How many bytes an argument of the program has, which stand at the buffer's beginning.
pub fn argument(rt: &impl Env, i: usize, buf: &mut [u8]) -> io::Result<usize>
    ensures { IfOk result (λ n. n ≤ length buf.old) }
{
    match rt.arg(i, buf) {
        Ok(n) => Ok(n),
        Err(FillError::NotPresent) => Err(Error::from_raw_os_error(EINVAL)),
        Err(FillError::TooLong) => Err(Error::from_raw_os_error(ENAMETOOLONG)),
    }
}

// What a program prints for --help.
pub fn help(console: &Console, usage: &[u8]) {
    print(console, usage);
    print(
        console,
        b"A program has no exit status of its own. It writes a digit to descriptor 3 for each thing that was not well: 1 if something\n",
    );
    print(
        console,
        b"was refused or could not be read or written, 2 for a wrong call. ./purmagheli opens the descriptor; its status is the greatest digit.\n",
    );
}

// Whether standard output can be written. Where it cannot, the reason is told. A program asks this before it does anything.
pub fn has_output(console: &Console) -> bool {
    if let Err(why) = console.output.write_some(b"") {
        unwritable(console, b"standard output", &why);
        return false;
    }
    true
}

// Whether all that was printed so far has been written. A program that is not heard stops: it makes no further call and opens no file.
pub fn is_heard(console: &Console) -> bool {
    console.written.get() && console.output.write_some(b"").is_ok()
}

// A text on standard output. Where it cannot be written, the reason is told once, and nothing more is written.
pub fn print(console: &Console, text: &[u8]) {
    if !console.written.get() {
        return;
    }
    if let Err(why) = console.output.write_all(text) {
        if why.raw_os_error() != Some(EBADF) {
            unwritable(console, b"standard output", &why);
        }
        console.written.set(false);
    }
}

// The place in a script that a message is about, on standard error.
pub fn tell_place(console: &Console, script: &[u8], place: Place) {
    if place.line == 0 {
        return;
    }
    say(console, script);
    tell(console, format_args!(":{}:{}: ", place.line, place.column));
}

// An error's words without the number of the system's.
#[derive(Drop)]
struct Words {
    errors: Stderr,
    is_over: bool,
}

impl fmt::Write for Words {
    fn write_str(&mut self, s: &str) -> fmt::Result {
        if self.is_over {
            return Ok(());
        }
        match s.split_once(" (os error ") {
            Some((words, _)) => {
                self.is_over = true;
                self.put(words);
            }
            None => self.put(s),
        }
        Ok(())
    }
}

impl Words {
    fn put(&self, s: &str) {
        let _ = self.errors.write_all(s.as_bytes());
    }
}

// What could not be read or written, and the reason, which is the system's.
fn fail(console: &Console, what: &[u8], why: &Error) {
    say(console, what);
    say(console, b": ");
    let mut words = Words {
        errors: console.errors,
        is_over: false,
    };
    let _ = write!(words, "{why}");
    say(console, b"\n");
}

pub fn unreadable(console: &Console, path: &[u8], why: &Error) {
    say(console, b"cannot read ");
    fail(console, path, why);
    tell_refusal(console);
}

pub fn unreadable_at(console: &Console, script: &[u8], place: Place, path: &[u8], why: &Error) {
    tell_place(console, script, place);
    unreadable(console, path, why);
}

pub fn unwritable(console: &Console, path: &[u8], why: &Error) {
    say(console, b"cannot write ");
    fail(console, path, why);
    tell_refusal(console);
}

pub fn unwritable_at(console: &Console, script: &[u8], place: Place, path: &[u8], why: &Error) {
    tell_place(console, script, place);
    unwritable(console, path, why);
}

// Reads until the buffer is full, or the input ends or cannot be read, and answers how many bytes there are.
pub fn read_full(from: &mut impl Read, buf: &mut [u8]) -> usize
    ensures { result ≤ length buf.old }
{
    let mut done = 0;
    // Kept: the place moves by what was read.
    while done < buf.len() {
        match from.read(&mut buf[done..]) {
            Ok(n) => {
                if n == 0 {
                    return done;
                }
                done += n;
            }
            Err(_) => return done,
        }
    }
    done
}

// Whether the input had as many bytes more as the buffer, which holds them then. Of a shorter rest the buffer holds what there was.
pub fn take_all<R: Read>(from: &mut R, buf: &mut [u8]) -> io::Result<bool>
    ensures { IfOk result (λ whole. whole ≡ true → Consumes (R.remaining from.old) (R.remaining from.new) buf.new) }
{
    match from.read_exact(buf) {
        Ok(()) => Ok(true),
        Err(why) if why.kind() == ErrorKind::UnexpectedEof => Ok(false),
        Err(why) => Err(why),
    }
}

// Reads on after the first n bytes, and answers how many there are then.
fn read_on(from: &mut impl Read, buf: &mut [u8], n: usize) -> usize
    requires { n ≤ length buf.old }
    ensures { result ≤ length buf.old }
{
    if n < buf.len() {
        return n + read_full(from, &mut buf[n..]);
    }
    n
}

fn read_open(
    console: &Console,
    script: &[u8],
    place: Place,
    path: &[u8],
    from: &mut impl Read,
    buf: &mut [u8],
) -> Option<usize>
    ensures { IfSome result (λ n. n ≤ length buf.old) }
{
    match from.read(buf) {
        Err(why) => {
            unreadable_at(console, script, place, path, &why);
            None
        }
        Ok(first) => Some(read_on(from, buf, first)),
    }
}

// A file that is opened for reading.
pub fn open_read<R: Files>(rt: &R, path: &[u8]) -> io::Result<R::File> {
    fs::open(rt, paths::text_of(path)?)
}

// As much of a file as the buffer holds, and how many bytes that is. None: it could not be read, which has been told on standard error. The place is
// where a script names the file.
pub fn read_at(
    rt: &impl Files,
    console: &Console,
    script: &[u8],
    place: Place,
    path: &[u8],
    buf: &mut [u8],
) -> Option<usize>
    ensures { IfSome result (λ n. n ≤ length buf.old) }
{
    match open_read(rt, path) {
        Err(why) => {
            unreadable_at(console, script, place, path, &why);
            None
        }
        Ok(mut file) => read_open(console, script, place, path, &mut file, buf),
    }
}

// Whether a path is the dash that stands for standard input.
pub fn is_dash(path: &[u8]) -> bool {
    path == b"-".as_slice()
}

// As much of a file that is named where a program is called: a dash is standard input.
pub fn read_named<R: Files + Input>(
    rt: &R,
    console: &Console,
    path: &[u8],
    buf: &mut [u8],
) -> Option<usize>
    ensures { IfSome result (λ n. n ≤ length buf.old) }
{
    let nowhere = Place { line: 0, column: 0 };
    if is_dash(path) {
        return read_open(console, path, nowhere, path, &mut rt.reader(), buf);
    }
    read_at(rt, console, path, nowhere, path, buf)
}
