// ./purmagheli compose FILE: the text of the request, or the book, whose account the file holds, as inspect tells it, or those of several accounts,
// one behind another; of what cannot be composed the line that cannot be read, or the number by which request or book would be refused. A dash is standard input.
#![tactic(auto)]

mod books;
mod refusals;

ghost use Rattle.std.specs.Prelude.{◌≤◌, length};

use chars::Refusal;
use cli_files::Console;
use cli_request::{Account, Expected, several};
use std::env::Env;
use std::fmt;
use std::fmt::{Display, Write};
use std::fs::Files;

// So many bytes of a file are read.
const BUFFER: usize = 65536;

fn say(console: &Console, text: &[u8]) {
    cli_files::say(console, text);
}

fn usage(console: &Console) {
    say(console, b"usage: compose FILE\n");
    cli_files::tell_wrong_call(console);
}

// What a line of a request's account should say.
#[derive(Clone, Copy)]
struct Words(Expected);

impl fmt::Display for Words {
    fn fmt<W: fmt::Write>(&self, f: &mut fmt::Formatter<W>) -> fmt::Result {
        f.write_str(match self.0 {
            Expected::SubType => "accepted and a sub type of three digits",
            Expected::Reference => "reference and up to 16 of A-Z 0-9",
            Expected::Stream => "stream and 4 of A-Z 0-9",
            Expected::Bin => "bin and up to 8 of A-Z 0-9",
            Expected::Message => "message and number/count, two digits each",
            Expected::Date => "date and six digits, YYMMDD",
            Expected::Activation => "activation and four digits, HHMM, or none",
            Expected::Payment => "payment CR CENTS BANK or payment DR CENTS BANK LETTERS",
            Expected::Nothing => "no further line",
        })
    }
}

// The file's line of a line of the account whose first line is the file's line `first`.
fn file_line(first: usize, line: usize) -> u64 {
    let behind = (line as u64).wrapping_sub(1);
    (first as u64).wrapping_add(behind)
}

// The line at a place of such an account does not say what it should.
fn say_expecting(
    console: &Console,
    s: &[u8],
    first: usize,
    at: usize,
    expected: impl Display + Drop,
) {
    let line = file_line(first, cli_request::line_of(s, at));
    cli_files::tell(console, format_args!("line {line}: expected {expected}\n"));
    cli_files::tell_refusal(console);
}

fn say_refused(console: &Console, why: Refusal) {
    cli_files::tell(console, format_args!("refused {:02}\n", why.number()));
    cli_files::tell_refusal(console);
}

// The file's line `first` is that of the account's sub type. A buffer of so many bytes holds every request.
fn write_order(console: &Console, account: Account, first: usize) {
    let order = account.order;
    let mut text = [0u8; 4096];
    match request_write::write_request(&mut text, 0, order) {
        Err(_) => refusals::say_order(console, order, first),
        Ok(n) => cli_print::first(console, &text, n),
    }
}

// Of the account whose first line is the file's line `first`, the file's line of its sub type: a line that names a file may come before it.
fn head_line(s: &[u8], first: usize) -> usize {
    if cli_request::first_line(s) == 0 {
        return first;
    }
    if first < usize::MAX { first + 1 } else { first }
}

// One account, whose first line is the file's line `first`.
fn compose(console: &Console, s: &[u8], first: usize) {
    if books::is_book(s) {
        books::compose(console, s, first);
        return;
    }
    let account = cli_request::read_account(s);
    match account.ending {
        Err((at, expected)) => say_expecting(console, s, first, at, Words(expected)),
        Ok(()) => write_order(console, account, head_line(s, first)),
    }
}

// The account that begins at a place, and the place where it ends.
fn compose_at(console: &Console, s: &[u8], at: usize) -> usize
    requires { at ≤ length s.now }
    ensures { result ≤ length s.now }
{
    let rest = &s[at..];
    let line = cli_request::line_of(s, at);
    let n = several::first_end(rest);
    if rest.len() <= n {
        compose(console, rest, line);
        return s.len();
    }
    compose(console, &rest[..n], line);
    at + n
}

// The accounts of a file, one behind another.
fn compose_each(console: &Console, s: &[u8]) {
    let mut at = compose_at(console, s, 0);
    // Kept: the place moves by an account.
    while at < s.len() {
        let next = compose_at(console, s, at);
        if next <= at {
            return;
        }
        at = next;
    }
}

fn say_too_long(console: &Console) {
    say(console, b"the file has more than 65,535 bytes\n");
    cli_files::tell_refusal(console);
}

// A file that fills the buffer may go on past it.
fn compose_first(console: &Console, s: &[u8]) {
    if BUFFER <= s.len() {
        say_too_long(console);
        return;
    }
    compose_each(console, s);
}

fn compose_file(rt: &(impl Files + Input), console: &Console, path: &[u8]) {
    let mut buf = [0u8; BUFFER];
    if let Some(n) = cli_files::read_named(rt, console, path, &mut buf) {
        compose_first(console, &buf[..n]);
    }
}

fn run(rt: &(impl Env + Files + Input), console: &Console) {
    if cli_files::is_argument(rt, 1, b"--help") {
        cli_files::help(console, b"usage: compose FILE\n");
        return;
    }
    if !cli_files::has_output(console) {
        return;
    }
    if cli_files::argument_count(rt) != 2 {
        usage(console);
        return;
    }
    let mut path = [0u8; 4096];
    match cli_files::argument(rt, 1, &mut path) {
        Ok(n) => compose_file(rt, console, &path[..n]),
        Err(why) => cli_files::unreadable(console, b"argument", &why),
    }
}

fn main(rt: HostRuntime) {
    let console = Console::new(rt.stdout(), rt.stderr());
    run(&rt, &console);
    console.tell_status(&rt);
}
