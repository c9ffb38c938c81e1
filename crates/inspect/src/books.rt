// The account of a book.
use crate::faults;
use book_read::Book;
use cli_files::Console;
use cli_print::ShortCode;

// The number at a place of a row; 0 past its end.
fn at(row: &[u64], i: usize) -> u64 {
    row.get(i).copied().unwrap_or(0)
}

fn show_streams(console: &Console, streams: &[u64], n: usize) {
    for i in 0..n.min(Book::STREAMS) {
        let code = ShortCode(at(streams, 2 * i));
        let administrator = at(streams, 2 * i + 1);
        cli_print::line(console, format_args!("stream {code} {administrator}"));
    }
}

// A bank, and the streams of its bits, in their order.
fn show_bank(
    console: &Console,
    streams: &[u64],
    code: u64,
    flags: u64,
    balance: u64,
    sublimit: u64,
) {
    let code = ShortCode(code);
    let standing = if flags % 2 == 1 {
        "suspended"
    } else {
        "active"
    };
    let mut row = cli_print::begin(console);
    row.put(format_args!("bank {code} {standing} {balance} {sublimit}"));
    let mut bits = flags / 2;
    for i in 0..Book::STREAMS {
        if bits % 2 == 1 {
            row.put(format_args!(" {}", ShortCode(at(streams, 2 * i))));
        }
        bits = bits / 2;
    }
    row.print_line();
}

fn show_banks(
    console: &Console,
    streams: &[u64],
    codes: &[u64],
    flags: &[u64],
    balances: &[u64],
    sublimits: &[u64],
    n: usize,
) {
    for i in 0..n.min(Book::BANKS) {
        show_bank(
            console,
            streams,
            at(codes, i),
            at(flags, i),
            at(balances, i),
            at(sublimits, i),
        );
    }
}

// The sum of the first n balances, which a sound book keeps far below 2^64.
fn total(balances: &[u64], n: usize) -> u64 {
    let mut sum: u64 = 0;
    for &balance in balances.iter().take(n) {
        sum = sum.wrapping_add(balance);
    }
    sum
}

pub fn show(console: &Console, s: &[u8]) {
    let mut streams = [0u64; 16];
    let mut codes = [0u64; 64];
    let mut flags = [0u64; 64];
    let mut balances = [0u64; 64];
    let mut sublimits = [0u64; 64];
    match book_read::read(
        s,
        &mut streams,
        &mut codes,
        &mut flags,
        &mut balances,
        &mut sublimits,
    ) {
        Err(why) => {
            cli_print::refused(console, why);
            faults::show(console, s);
        }
        Ok(book) => {
            cli_print::line(console, "accepted book");
            let date = dates::date_of(book.day);
            cli_print::line(console, format_args!("date {date:06}"));
            show_streams(console, &streams, book.streams);
            show_banks(
                console, &streams, &codes, &flags, &balances, &sublimits, book.banks,
            );
            let sum = total(&balances, book.banks);
            cli_print::line(console, format_args!("total {sum}"));
        }
    }
}
