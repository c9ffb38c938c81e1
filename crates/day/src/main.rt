// ./purmagheli day [--keep-going] plain|quick [SCRIPT]: runs the calls of a script and prints what each of them answers, tries and writes. The script
// comes from standard input if it is - or none is named. day stops at the first line that is not a call, or whose file cannot be read or written,
// and tells the place and the reason on standard error. With --keep-going it prints "line N not a call" and goes on.
#![tactic(auto)]

ghost use Rattle.std.specs.Prelude.{◌≤◌, IfSome, length};

use call::step::Told;
use chars::Refusal;
use cli_files::lines::Ahead;
use cli_files::paths::PATH_MAX;
use cli_files::{Console, Place, lines, paths, whole};
use cli_script::{Line, Wanted};
use model::{Action, Phase};
use std::env::Env;
use std::fmt::{Display, Write};
use std::fs::Files;
use std::random::RandomSource;
use std::{fmt, io};
use tables::Desk;

// A call: its clock, its action, and where in the line its file's name begins.
#[derive(Clone, Copy)]
struct Asked {
    clock: u64,
    action: Action,
    file: usize,
}

// What a line has the program do.
#[derive(Clone, Copy)]
enum Deed {
    Nothing,
    Clear,
    Show,
    Why,
    Call(Asked),
    // What was expected at the first word from a place on.
    NotACall(usize, Wanted),
    // A line of more than 65,536 bytes that is no comment.
    TooLong,
    // The file of a call could not be read, and that has been told.
    Unread,
}

// A line's deed, and how many bytes of input it has.
#[derive(Clone, Copy)]
struct Read {
    deed: Deed,
    n: usize,
}

// The next line: its deed, its length, and how many bytes of input it has.
#[derive(Clone, Copy)]
struct Next {
    deed: Deed,
    length: usize,
    n: usize,
}

fn asks(clock: u64, action: Action, file: usize) -> Deed {
    Deed::Call(Asked {
        clock,
        action,
        file,
    })
}

fn deed_of(line: Line) -> Deed {
    match line {
        Line::Skip => Deed::Nothing,
        Line::Clear => Deed::Clear,
        Line::Open(clock, file) => asks(clock, Action::Opening, file),
        Line::Message(clock, sender, file) => asks(clock, Action::Message(sender), file),
        Line::SubLimit(clock, bank, cents) => asks(clock, Action::SubLimit(bank, cents), 0),
        Line::Status(clock, bank, bin, letter) => {
            asks(clock, Action::Status(bank, bin, letter), 0)
        }
        Line::Tick(clock) => asks(clock, Action::Tick, 0),
        Line::Close(clock) => asks(clock, Action::Close, 0),
        Line::Closing(clock, date, file) => asks(clock, Action::ClosingBook(date), file),
        Line::Show => Deed::Show,
        Line::Why => Deed::Why,
        Line::NotACall(at, wanted) => Deed::NotACall(at, wanted),
    }
}

// What was expected.
#[derive(Clone, Copy)]
struct Words(Wanted);

impl fmt::Display for Words {
    fn fmt<W: fmt::Write>(&self, f: &mut fmt::Formatter<W>) -> fmt::Result {
        f.write_str(match self.0 {
            Wanted::Command =>
                "clear, open, message, sublimit, status, tick, close, closing, show or why",
            Wanted::Clock => "a clock: seconds of the day, or HH:MM:SS",
            Wanted::Sender => "the number of the sender",
            Wanted::Bank => "a bank of 4 characters",
            Wanted::Cents => "whole cents, at most 18446744073709551615",
            Wanted::BinCode => "a BIN of 8 characters",
            Wanted::Letter => "a letter",
            Wanted::Date => "a date of 6 characters, YYMMDD",
            Wanted::FileName => "the name of a file",
            Wanted::LineEnd => "the end of the line",
        })
    }
}

// Columns are counted in bytes, from 1 on. A line has at most 65,536 of them.
fn column_at(at: usize) -> u64 {
    if at < 65536 { at as u64 + 1 } else { 65537 }
}

fn place_at(number: u64, at: usize) -> Place {
    let column = column_at(at);
    Place {
        line: number,
        column,
    }
}

// What is told of a line that is no call, after its place if the script ends there. Answers whether it goes on.
fn goes_on(console: &Console, keep_going: bool, number: u64) -> bool {
    cli_files::tell_refusal(console);
    if !keep_going {
        return false;
    }
    cli_print::line(console, format_args!("line {number} not a call"));
    cli_files::is_heard(console)
}

// What was expected at a place of a line that is no call.
fn not_a_call(
    console: &Console,
    keep_going: bool,
    number: u64,
    name: &[u8],
    at: usize,
    wanted: impl Display + Drop,
) -> bool {
    if !keep_going {
        cli_files::tell_place(console, name, place_at(number, at));
        cli_files::tell(console, format_args!("expected {wanted}\n"));
    }
    goes_on(console, keep_going, number)
}

fn command(action: Action) -> &'static str {
    match action {
        Action::Opening => "open",
        Action::Message(_) => "message",
        Action::SubLimit(_, _) => "sublimit",
        Action::Status(_, _, _) => "status",
        Action::Tick => "tick",
        Action::Close => "close",
        Action::ClosingBook(_) => "closing",
    }
}

// Whether a book was written to the file that a line names.
fn give_file(
    rt: &(impl Files + RandomSource),
    console: &Console,
    name: &[u8],
    place: Place,
    file: &[u8],
    book: &[u8],
) -> bool {
    let mut path = [0u8; PATH_MAX];
    let n = paths::beside(name, file, &mut path);
    whole::write(rt, console, name, place, &path[..n], book)
}

fn give_book(
    rt: &(impl Files + RandomSource),
    console: &Console,
    name: &[u8],
    number: u64,
    s: &[u8],
    file: usize,
    out: &[u8],
    n: usize,
) -> bool {
    let end = cli_script::word_end(s, file);
    if s.len() < end || end < file || out.len() < n {
        return false;
    }
    give_file(
        rt,
        console,
        name,
        place_at(number, file),
        &s[file..end],
        &out[..n],
    )
}

fn give_text(console: &Console, out: &[u8], n: usize) -> bool {
    cli_print::first(console, out, n);
    cli_files::is_heard(console)
}

// A closing book that is given goes to its file, anything else to standard output. Answers whether the script goes on.
fn give(
    rt: &(impl Files + RandomSource),
    console: &Console,
    keep_going: bool,
    number: u64,
    name: &[u8],
    s: &[u8],
    asked: Asked,
    answer: Result<(), Refusal>,
    out: &[u8],
    n: usize,
) -> bool {
    let action = asked.action;
    match action {
        Action::ClosingBook(_) => {
            answer.is_err()
                || give_book(rt, console, name, number, s, asked.file, out, n)
                || keep_going
        }
        _ => give_text(console, out, n),
    }
}

fn tell_call(
    rt: &(impl Files + RandomSource),
    console: &Console,
    keep_going: bool,
    number: u64,
    name: &[u8],
    s: &[u8],
    asked: Asked,
    told: Told,
    out: &[u8],
    tries: &[u64],
) -> bool {
    let action = asked.action;
    let answer = told.answer;
    let mut row = cli_print::begin(console);
    row.put(format_args!("{} {:02} tries", command(action), model::number_of(answer)));
    for &place in tries.iter().take(told.tried) {
        row.put(format_args!(" {place}"));
    }
    row.put(format_args!(" bytes {}", told.written));
    row.print_line();
    if !cli_files::is_heard(console) {
        return false;
    }
    give(
        rt,
        console,
        keep_going,
        number,
        name,
        s,
        asked,
        answer,
        out,
        told.written,
    )
}

fn read_named(
    rt: &impl Files,
    console: &Console,
    name: &[u8],
    place: Place,
    file: &[u8],
    input: &mut [u8],
) -> Option<usize>
    ensures { IfSome result (λ n. n ≤ length input.old) }
{
    let mut path = [0u8; PATH_MAX];
    let n = paths::beside(name, file, &mut path);
    cli_files::read_at(rt, console, name, place, &path[..n], input)
}

fn read_file(
    rt: &impl Files,
    console: &Console,
    name: &[u8],
    number: u64,
    s: &[u8],
    file: usize,
    input: &mut [u8],
) -> Option<usize>
    ensures { IfSome result (λ n. n ≤ length input.old) }
{
    let end = cli_script::word_end(s, file);
    if s.len() < end || end < file {
        return None;
    }
    read_named(
        rt,
        console,
        name,
        place_at(number, file),
        &s[file..end],
        input,
    )
}

// The text or the book of a call. A file past the buffer's 65,536 bytes has the answer that these have: a text
// is read to its 4,096th byte at the most, and a book of more than 2,560 bytes is refused for its length.
fn read_input(
    rt: &impl Files,
    console: &Console,
    name: &[u8],
    number: u64,
    s: &[u8],
    asked: Asked,
    input: &mut [u8],
) -> Option<usize>
    ensures { IfSome result (λ n. n ≤ length input.old) }
{
    let action = asked.action;
    match action {
        Action::Opening => read_file(rt, console, name, number, s, asked.file, input),
        Action::Message(_) => read_file(rt, console, name, number, s, asked.file, input),
        _ => Some(0),
    }
}

// The line's deed, and how many bytes of a call's text or book were read.
fn read_deed(
    rt: &impl Files,
    console: &Console,
    name: &[u8],
    number: u64,
    s: &[u8],
    input: &mut [u8],
) -> Read {
    let deed = deed_of(cli_script::read_line(s));
    match deed {
        Deed::Call(asked) => match read_input(rt, console, name, number, s, asked, input) {
            None => Read {
                deed: Deed::Unread,
                n: 0,
            },
            Some(n) => Read { deed, n },
        },
        _ => Read { deed, n: 0 },
    }
}

fn is_comment(s: &[u8]) -> bool {
    let at = cli_script::word_start(s, 0);
    if at < s.len() { s[at] == b'#' } else { false }
}

// A line that is longer than its buffer is no call, whatever its beginning says.
fn read_line(
    rt: &impl Files,
    console: &Console,
    name: &[u8],
    number: u64,
    s: &[u8],
    is_long: bool,
    input: &mut [u8],
) -> Read {
    if !is_long {
        return read_deed(rt, console, name, number, s, input);
    }
    if is_comment(s) {
        return Read {
            deed: Deed::Nothing,
            n: 0,
        };
    }
    Read {
        deed: Deed::TooLong,
        n: 0,
    }
}

// Takes the next line of the script, if it has one more, and reads the file that the line names.
fn read_next(
    rt: &impl Files,
    console: &Console,
    number: u64,
    name: &[u8],
    from: &mut impl io::Read,
    buf: &mut [u8],
    line: &mut [u8],
    input: &mut [u8],
    ahead: &mut Ahead,
) -> Option<Next> {
    let taken = lines::take(console, name, from, buf, line, ahead)?;
    let length = taken.n;
    if line.len() < length {
        return None;
    }
    let read = read_line(
        rt,
        console,
        name,
        number,
        &line[..length],
        taken.is_long,
        input,
    );
    Some(Next {
        deed: read.deed,
        length,
        n: read.n,
    })
}

// What is told of a line that asks nothing of the engine.
fn nothing(desk: Desk) -> Told {
    Told {
        answer: Ok(()),
        written: 0,
        tried: 0,
        desk,
    }
}

fn call(
    quick: bool,
    asked: Asked,
    input: &[u8],
    n: usize,
    desk: Desk,
    codes: &mut [u64; 64],
    flags: &mut [u64; 64],
    balances: &mut [u64; 64],
    sublimits: &mut [u64; 64],
    batches: &mut [u64; 11168],
    references: &mut [u64; 6144],
    bins: &mut [u64; 1536],
    sheet: &mut [u64; 64],
    out: &mut [u8; 33705],
    tries: &mut [u64; 528],
) -> Told {
    if input.len() < n {
        return nothing(desk);
    }
    let action = asked.action;
    call_columns::columns::call(
        quick,
        asked.clock,
        action,
        &input[..n],
        desk,
        codes,
        flags,
        balances,
        sublimits,
        batches,
        references,
        bins,
        sheet,
        out,
        tries,
    )
}

fn clear(
    desk: Desk,
    codes: &mut [u64; 64],
    flags: &mut [u64; 64],
    balances: &mut [u64; 64],
    sublimits: &mut [u64; 64],
    batches: &mut [u64; 11168],
    references: &mut [u64; 6144],
    bins: &mut [u64; 1536],
    sheet: &mut [u64; 64],
) -> Told {
    let start = call_columns::columns::clear(
        desk, codes, flags, balances, sublimits, batches, references, bins, sheet,
    );
    let answer = start.answer;
    let after = start.desk;
    Told {
        answer,
        written: 0,
        tried: 0,
        desk: after,
    }
}

// Has the engine do what a line asks of it.
fn perform(
    quick: bool,
    deed: Deed,
    input: &[u8],
    n: usize,
    desk: Desk,
    codes: &mut [u64; 64],
    flags: &mut [u64; 64],
    balances: &mut [u64; 64],
    sublimits: &mut [u64; 64],
    batches: &mut [u64; 11168],
    references: &mut [u64; 6144],
    bins: &mut [u64; 1536],
    sheet: &mut [u64; 64],
    out: &mut [u8; 33705],
    tries: &mut [u64; 528],
) -> Told {
    match deed {
        Deed::Clear => clear(
            desk, codes, flags, balances, sublimits, batches, references, bins, sheet,
        ),
        Deed::Call(asked) => call(
            quick, asked, input, n, desk, codes, flags, balances, sublimits, batches, references,
            bins, sheet, out, tries,
        ),
        _ => nothing(desk),
    }
}

fn tell_clear(console: &Console, answer: Result<(), Refusal>) -> bool {
    cli_print::line(
        console,
        format_args!("clear {:02} tries bytes 0", model::number_of(answer)),
    );
    cli_files::is_heard(console)
}

// What a line has to tell, once it is done. Answers whether the script goes on.
fn tell(
    rt: &(impl Files + RandomSource),
    console: &Console,
    keep_going: bool,
    number: u64,
    name: &[u8],
    line: &[u8],
    length: usize,
    deed: Deed,
    told: Told,
    codes: &[u64; 64],
    flags: &[u64; 64],
    balances: &[u64; 64],
    sublimits: &[u64; 64],
    batches: &[u64; 11168],
    bins: &[u64; 1536],
    sheet: &[u64; 64],
    out: &[u8; 33705],
    tries: &[u64; 528],
) -> bool {
    let desk = told.desk;
    let answer = told.answer;
    if line.len() < length {
        return false;
    }
    match deed {
        Deed::Nothing => true,
        Deed::NotACall(at, wanted) => not_a_call(
            console,
            keep_going,
            number,
            name,
            cli_script::word_start(&line[..length], at),
            Words(wanted),
        ),
        Deed::TooLong => not_a_call(
            console,
            keep_going,
            number,
            name,
            65536,
            "the end of the line: it has more than 65,536 bytes",
        ),
        Deed::Unread => goes_on(console, keep_going, number),
        Deed::Show => {
            cli_tables::show(
                console, desk, codes, flags, balances, sublimits, batches, bins, sheet,
            );
            cli_files::is_heard(console)
        }
        Deed::Why => {
            cli_tables::tell_why(
                console, desk.date, codes, balances, sublimits, batches, bins,
            );
            cli_files::is_heard(console)
        }
        Deed::Clear => tell_clear(console, answer),
        Deed::Call(asked) => {
            tell_call(
                rt,
                console,
                keep_going,
                number,
                name,
                &line[..length],
                asked,
                told,
                out,
                tries,
            )
        }
    }
}

// The next line of the script: read, done and told. Answers whether there may be one more.
fn do_next(
    rt: &(impl Files + RandomSource),
    console: &Console,
    quick: bool,
    keep_going: bool,
    number: u64,
    name: &[u8],
    from: &mut impl io::Read,
    buf: &mut [u8; 65536],
    line: &mut [u8; 65536],
    input: &mut [u8; 65536],
    ahead: &mut Ahead,
    desk: &mut Desk,
    codes: &mut [u64; 64],
    flags: &mut [u64; 64],
    balances: &mut [u64; 64],
    sublimits: &mut [u64; 64],
    batches: &mut [u64; 11168],
    references: &mut [u64; 6144],
    bins: &mut [u64; 1536],
    sheet: &mut [u64; 64],
    out: &mut [u8; 33705],
    tries: &mut [u64; 528],
) -> bool {
    let Some(next) = read_next(rt, console, number, name, from, buf, line, input, ahead) else {
        return false;
    };
    let deed = next.deed;
    let told = perform(
        quick, deed, input, next.n, *desk, codes, flags, balances, sublimits, batches, references,
        bins, sheet, out, tries,
    );
    *desk = told.desk;
    tell(
        rt,
        console,
        keep_going,
        number,
        name,
        line,
        next.length,
        deed,
        told,
        codes,
        flags,
        balances,
        sublimits,
        batches,
        bins,
        sheet,
        out,
        tries,
    )
}

// No script has so many lines that the numbers run out.
fn run(
    rt: &(impl Files + RandomSource),
    console: &Console,
    quick: bool,
    keep_going: bool,
    name: &[u8],
    from: &mut impl io::Read,
) {
    let mut buf = [0u8; 65536];
    let mut line = [0u8; 65536];
    let mut input = [0u8; 65536];
    let mut codes = [0u64; 64];
    let mut flags = [0u64; 64];
    let mut balances = [0u64; 64];
    let mut sublimits = [0u64; 64];
    let mut batches = [0u64; 11168];
    let mut references = [0u64; 6144];
    let mut bins = [0u64; 1536];
    let mut sheet = [0u64; 64];
    let mut out = [0u8; 33705];
    let mut tries = [0u64; 528];
    let mut desk = Desk {
        phase: Phase::Fresh,
        date: 0,
        clock: 0,
        texts: 0,
        banks: 0,
        streams: [0u64; 16],
        n: 0,
    };
    let mut ahead = lines::nothing_ahead();
    for number in 1..u64::MAX {
        let more = do_next(
            rt,
            console,
            quick,
            keep_going,
            number,
            name,
            from,
            &mut buf,
            &mut line,
            &mut input,
            &mut ahead,
            &mut desk,
            &mut codes,
            &mut flags,
            &mut balances,
            &mut sublimits,
            &mut batches,
            &mut references,
            &mut bins,
            &mut sheet,
            &mut out,
            &mut tries,
        );
        if !more {
            return;
        }
    }
}

fn usage(console: &Console) {
    cli_files::say(console, b"usage: day [--keep-going] plain|quick [SCRIPT]\n");
    cli_files::tell_wrong_call(console);
}

fn run_file(
    rt: &(impl Files + Input + RandomSource),
    console: &Console,
    quick: bool,
    keep_going: bool,
    path: &[u8],
) {
    if cli_files::is_dash(path) {
        run(
            rt,
            console,
            quick,
            keep_going,
            b"standard input",
            &mut rt.reader(),
        );
        return;
    }
    match cli_files::open_read(rt, path) {
        Ok(mut file) => run(rt, console, quick, keep_going, path, &mut file),
        Err(why) => cli_files::unreadable(console, path, &why),
    }
}

// The script is the argument at a place, or standard input where there is none.
fn run_script(
    rt: &(impl Env + Files + Input + RandomSource),
    console: &Console,
    quick: bool,
    keep_going: bool,
    at: usize,
    count: usize,
) {
    if count <= at {
        run_file(rt, console, quick, keep_going, b"-");
        return;
    }
    let mut path = [0u8; 4096];
    match cli_files::argument(rt, at, &mut path) {
        Ok(n) => run_file(rt, console, quick, keep_going, &path[..n]),
        Err(why) => cli_files::unreadable(console, b"argument", &why),
    }
}

// The argument at a place names the queue test, and the one at another the script. There are at most so many.
fn run_test(
    rt: &(impl Env + Files + Input + RandomSource),
    console: &Console,
    keep_going: bool,
    at: usize,
    script: usize,
    most: usize,
    count: usize,
) {
    if most < count {
        usage(console);
        return;
    }
    if cli_files::is_argument(rt, at, b"plain") {
        run_script(rt, console, false, keep_going, script, count);
        return;
    }
    if cli_files::is_argument(rt, at, b"quick") {
        run_script(rt, console, true, keep_going, script, count);
        return;
    }
    usage(console);
}

fn run_program(rt: &(impl Env + Files + Input + RandomSource), console: &Console) {
    if cli_files::is_argument(rt, 1, b"--help") {
        cli_files::help(console, b"usage: day [--keep-going] plain|quick [SCRIPT]\n");
        return;
    }
    if !cli_files::has_output(console) {
        return;
    }
    let count = cli_files::argument_count(rt);
    if cli_files::is_argument(rt, 1, b"--keep-going") {
        run_test(rt, console, true, 2, 3, 4, count);
        return;
    }
    run_test(rt, console, false, 1, 2, 3, count);
}

fn main(rt: HostRuntime) {
    let console = Console::new(rt.stdout(), rt.stderr());
    run_program(&rt, &console);
    console.tell_status(&rt);
}
