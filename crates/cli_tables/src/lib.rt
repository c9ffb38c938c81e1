// What stands in the tables, and why what waits has not settled.
#![tactic(auto)]

mod orders;

use cli_files::Console;
use cli_print::{EsaLetter, LongCode, ShortCode};
use model::Phase;
use orders::Stage;
use queue_explain::{Debit, Held};
use settle::{Bank, Batch};
use std::fmt::Display;
use tables::Desk;

fn index(x: u64) -> usize {
    x as usize
}

fn show_moment(console: &Console, standing: &str, desk: Desk) {
    let date = dates::date_of(desk.date);
    cli_print::line(
        console,
        format_args!(
            "day {date:06} {standing} clock {} texts {}",
            desk.clock, desk.texts
        ),
    );
}

fn show_day(console: &Console, desk: Desk) {
    match desk.phase {
        Phase::Fresh => cli_print::line(console, "day none"),
        Phase::Open => show_moment(console, "open", desk),
        Phase::Closed => show_moment(console, "closed", desk),
    }
}

fn show_bank(console: &Console, code: u64, flags: u64, balance: u64, sublimit: u64, waiting: u64) {
    let code = ShortCode(code);
    let standing = if flags % 2 == 1 {
        "suspended"
    } else {
        "active"
    };
    cli_print::line(
        console,
        format_args!(
            "bank {code} {standing} balance {balance} sublimit {sublimit} waiting {waiting}"
        ),
    );
}

fn show_banks(
    console: &Console,
    codes: &[u64],
    flags: &[u64],
    balances: &[u64],
    sublimits: &[u64],
    sheet: &[u64],
    n: usize,
) {
    for i in 0..n.min(Bank::MOST) {
        show_bank(
            console,
            orders::at(codes, i),
            orders::at(flags, i),
            orders::at(balances, i),
            orders::at(sublimits, i),
            orders::at(sheet, i),
        );
    }
}

// The BINs of a stage.
fn show_order(
    console: &Console,
    name: &str,
    batches: &[u64],
    bins: &[u64],
    date: u64,
    stage: Stage,
) {
    let mut row = cli_print::begin(console);
    row.put(name);
    let mut last = None;
    for _ in 0..Batch::LIVE {
        last = orders::next(batches, bins, date, stage, last);
        let Some(place) = last else {
            break;
        };
        row.put(format_args!(" {}", LongCode(orders::bin_of(batches, place))));
    }
    row.print_line();
}

pub fn show(
    console: &Console,
    desk: Desk,
    codes: &[u64],
    flags: &[u64],
    balances: &[u64],
    sublimits: &[u64],
    batches: &[u64],
    bins: &[u64],
    sheet: &[u64],
) {
    let date = desk.date;
    show_day(console, desk);
    show_banks(
        console, codes, flags, balances, sublimits, sheet, desk.banks,
    );
    show_order(console, "queue", batches, bins, date, Stage::Queued);
    show_order(console, "pending", batches, bins, date, Stage::Pending);
    show_order(
        console,
        "assembling",
        batches,
        bins,
        date,
        Stage::Assembling,
    );
}

// The debit that holds a batch, and the account that it is held at, with what is the matter.
fn tell_debit(
    console: &Console,
    codes: &[u64],
    balances: &[u64],
    sublimits: &[u64],
    batches: &[u64],
    place: usize,
    debit: Debit,
    matter: impl Display + Drop,
) {
    let bank = index(debit.bank);
    let bin = LongCode(orders::bin_of(batches, place));
    let code = ShortCode(orders::at(codes, bank));
    let letter = EsaLetter(debit.letter);
    let cents = debit.cents;
    let balance = orders::at(balances, bank);
    let sublimit = orders::at(sublimits, bank);
    cli_print::line(
        console,
        format_args!(
            "held {bin} {code} {letter} amount {cents} balance {balance} sublimit {sublimit} {matter}"
        ),
    );
}

fn tell_held(
    console: &Console,
    codes: &[u64],
    balances: &[u64],
    sublimits: &[u64],
    batches: &[u64],
    place: usize,
) {
    match queue_explain::held_at(balances, sublimits, batches, place) {
        Held::Short(debit, short) => tell_debit(
            console,
            codes,
            balances,
            sublimits,
            batches,
            place,
            debit,
            format_args!("short {short}"),
        ),
        Held::Deferred(debit) => tell_debit(
            console, codes, balances, sublimits, batches, place, debit, "deferred",
        ),
        // No queued batch would pass after a call.
        Held::Free => (),
        Held::Unqueued => (),
    }
}

fn tell_pending(console: &Console, batches: &[u64], place: usize) {
    let activation = orders::word(batches, place, Batch::ACTIVATION);
    let mut row = cli_print::begin(console);
    row.put(format_args!("pending {} ", LongCode(orders::bin_of(batches, place))));
    if 0 < activation {
        row.put(format_args!("{:04}", clock::hhmm_of(activation - 1)));
    }
    row.print_line();
}

fn tell_assembling(console: &Console, batches: &[u64], place: usize) {
    let bin = LongCode(orders::bin_of(batches, place));
    let there = orders::word(batches, place, Batch::MESSAGES_THERE);
    let count = orders::word(batches, place, Batch::COUNT);
    cli_print::line(console, format_args!("assembling {bin} {there} of {count}"));
}

// Why each batch of a stage has not settled.
fn tell_order(
    console: &Console,
    codes: &[u64],
    balances: &[u64],
    sublimits: &[u64],
    batches: &[u64],
    bins: &[u64],
    date: u64,
    stage: Stage,
) {
    let mut last = None;
    for _ in 0..Batch::LIVE {
        last = orders::next(batches, bins, date, stage, last);
        let Some(place) = last else {
            return;
        };
        match stage {
            Stage::Assembling => tell_assembling(console, batches, place),
            Stage::Pending => tell_pending(console, batches, place),
            Stage::Queued => tell_held(console, codes, balances, sublimits, batches, place),
        }
    }
}

pub fn tell_why(
    console: &Console,
    date: u64,
    codes: &[u64],
    balances: &[u64],
    sublimits: &[u64],
    batches: &[u64],
    bins: &[u64],
) {
    for stage in [Stage::Queued, Stage::Pending, Stage::Assembling] {
        tell_order(
            console, codes, balances, sublimits, batches, bins, date, stage,
        );
    }
}
