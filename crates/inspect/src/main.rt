// ./purmagheli inspect request|response|book FILE..: what each file says, or the number by which it is
// refused, and of a book where it breaks. A dash is standard input.
#![tactic(auto)]

mod books;
mod faults;
mod requests;
mod responses;

use cli_files::Console;
use std::env::Env;
use std::fs::Files;

// What the files are said to be.
#[derive(Clone, Copy)]
enum Subject {
    Request,
    Response,
    Book,
}

fn asked(rt: &impl Env) -> Option<Subject> {
    if cli_files::is_argument(rt, 1, b"request") {
        return Some(Subject::Request);
    }
    if cli_files::is_argument(rt, 1, b"response") {
        return Some(Subject::Response);
    }
    if cli_files::is_argument(rt, 1, b"book") {
        return Some(Subject::Book);
    }
    None
}

fn usage(console: &Console) {
    cli_files::say(console, b"usage: inspect request|response|book FILE..\n");
    cli_files::tell_wrong_call(console);
}

fn show(console: &Console, subject: Subject, s: &[u8]) {
    match subject {
        Subject::Request => requests::show(console, s),
        Subject::Response => responses::show(console, s),
        Subject::Book => books::show(console, s),
    }
}

// A name and its value, which need not be text, on a line.
fn named(console: &Console, name: &str, value: &[u8]) {
    let mut row = cli_print::begin(console);
    row.put(name);
    row.text(b" ");
    row.text(value);
    row.print_line();
}

// A file past the buffer's 65,536 bytes has the answer that these have: a text is read to its 4,096th
// byte at the most, and a book of more than 2,560 bytes is refused for its length.
fn show_file(rt: &(impl Files + Input), console: &Console, subject: Subject, path: &[u8]) {
    let mut buf = [0u8; 65536];
    if let Some(n) = cli_files::read_named(rt, console, path, &mut buf) {
        named(console, "file", path);
        show(console, subject, &buf[..n]);
    }
}

fn show_argument(rt: &(impl Env + Files + Input), console: &Console, subject: Subject, i: usize) {
    let mut path = [0u8; 4096];
    match cli_files::argument(rt, i, &mut path) {
        Ok(n) => show_file(rt, console, subject, &path[..n]),
        Err(why) => cli_files::unreadable(console, b"argument", &why),
    }
}

fn show_arguments(
    rt: &(impl Env + Files + Input),
    console: &Console,
    subject: Subject,
    count: usize,
) {
    for i in 2..count {
        if !cli_files::is_heard(console) {
            return;
        }
        show_argument(rt, console, subject, i);
    }
}

fn run(rt: &(impl Env + Files + Input), console: &Console) {
    if cli_files::is_argument(rt, 1, b"--help") {
        cli_files::help(console, b"usage: inspect request|response|book FILE..\n");
        return;
    }
    if !cli_files::has_output(console) {
        return;
    }
    let count = cli_files::argument_count(rt);
    match asked(rt) {
        Some(subject) if 3 <= count => show_arguments(rt, console, subject, count),
        _ => usage(console),
    }
}

fn main(rt: HostRuntime) {
    let console = Console::new(rt.stdout(), rt.stderr());
    run(&rt, &console);
    console.tell_status(&rt);
}
