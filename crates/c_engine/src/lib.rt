// The calls on what a program in C lends: the engine in rows of words. include/purmagheli.h has the
// same constants.
#![tactic(auto)]

ghost use Rattle.std.specs.Prelude.{◌≡◌, [], ◌∷◌, ◌++◌, ◌≤◌, length, take, drop};
ghost use Rattle.std.proofs.lemmas.List.Edits.{sets};
ghost use Rattle.chars.specs.Words.{Says};
ghost use Rattle.tables.specs.House.{Lengths};
ghost use Rattle.tables.specs.Words.{sheet_length};
ghost use Rattle.tables.specs.Lent.{Called};
ghost use Rattle.call.specs.step.Stepping.{lent_as, left_as};
ghost use Rattle.call_records.specs.Records.{tables_in, Columns};
ghost use Rattle.c_engine.specs.Lending.{phase_by, phase_word, desk_in, desk_words};
ghost use Rattle.c_engine.specs.Lending.{banks_length, banks_in, engine_words, lent_words, action_by, asks};
ghost use Rattle.c_engine.specs.Lending.{Shaped, Shows, CalledWords, LongWords, ClearedWords};

use call::step::Told;
use chars::Refusal;
use codes::Code;
use model::{Action, Phase};
use tables::Desk;

// Words of the desk, and which is which: streams in use, and where the streams begin.
pub const DESK_WORDS: usize = 22;

pub const DESK_PHASE: usize = 0;

pub const DESK_DATE: usize = 1;

pub const DESK_CLOCK: usize = 2;

pub const DESK_TEXTS: usize = 3;

pub const DESK_BANKS: usize = 4;

pub const DESK_STREAMS: usize = 5;

pub const DESK_STREAM: usize = 6;

// Streams at the most, and words of each: code and administrator.
pub const STREAMS: usize = 8;

pub const STREAM_WORDS: usize = 2;

pub const PHASE_FRESH: u64 = 0;

pub const PHASE_OPEN: u64 = 1;

pub const PHASE_CLOSED: u64 = 2;

// Banks at the most, words of each, and which is which.
pub const BANKS: usize = 64;

pub const BANK_WORDS: usize = 5;

pub const BANK_CODE: usize = 0;

pub const BANK_FLAGS: usize = 1;

pub const BANK_BALANCE: usize = 2;

pub const BANK_SUBLIMIT: usize = 3;

pub const BANK_WAITING: usize = 4;

// Batches, references and BINs at the most, and words of each.
pub const BATCHES: usize = 32;

pub const BATCH_WORDS: usize = 349;

pub const REFERENCES: usize = 2048;

pub const REFERENCE_WORDS: usize = 3;

pub const BINS: usize = 512;

pub const BIN_WORDS: usize = 3;

// What a call does.
pub const ACTION_OPENING: u64 = 0;

pub const ACTION_MESSAGE: u64 = 1;

pub const ACTION_SUBLIMIT: u64 = 2;

pub const ACTION_STATUS: u64 = 3;

pub const ACTION_TICK: u64 = 4;

pub const ACTION_CLOSE: u64 = 5;

pub const ACTION_CLOSING_BOOK: u64 = 6;

// Words of a report: bytes written, tries.
pub const REPORT_WORDS: usize = 2;

pub const REPORT_WRITTEN: usize = 0;

pub const REPORT_TRIED: usize = 1;

fn phase_of(word: u64) -> Phase
    ensures { result ≡ phase_by word }
{
    if word == PHASE_FRESH {
        return Phase::Fresh;
    }
    if word == PHASE_OPEN {
        return Phase::Open;
    }
    Phase::Closed
}

fn phase_word(phase: Phase) -> u64
    ensures { result ≡ phase_word phase }
{
    match phase {
        Phase::Fresh => PHASE_FRESH,
        Phase::Open => PHASE_OPEN,
        Phase::Closed => PHASE_CLOSED,
    }
}

fn read_streams(desk: &[u64]) -> [u64; 16]
    requires { length desk.now ≡ 22 }
    ensures { result ≡ take 16 (drop 6 desk.now) }
{
    let mut streams = [0u64; 16];
    streams.copy_from_slice(&desk[DESK_STREAM..]);
    streams
}

fn read_desk(desk: &[u64]) -> Desk
    requires { length desk.now ≡ 22 }
    ensures { result ≡ desk_in desk.now }
{
    let phase = phase_of(desk[DESK_PHASE]);
    let streams = read_streams(desk);
    Desk {
        phase,
        date: desk[DESK_DATE],
        clock: desk[DESK_CLOCK],
        texts: desk[DESK_TEXTS],
        banks: desk[DESK_BANKS] as usize,
        streams,
        n: desk[DESK_STREAMS] as usize,
    }
}

fn write_streams(desk: &mut [u64], streams: [u64; 16])
    requires { length desk.old ≡ 22 }
    ensures { desk.new ≡ take 6 desk.old ++ streams }
{
    desk[DESK_STREAM..].copy_from_slice(&streams);
}

fn write_desk(desk: &mut [u64], left: Desk)
    requires { length desk.old ≡ 22 }
    ensures { desk.new ≡ desk_words left }
{
    let phase = left.phase;
    let streams = left.streams;
    write_streams(desk, streams);
    desk[DESK_PHASE] = phase_word(phase);
    desk[DESK_DATE] = left.date;
    desk[DESK_CLOCK] = left.clock;
    desk[DESK_TEXTS] = left.texts;
    desk[DESK_BANKS] = left.banks as u64;
    desk[DESK_STREAMS] = left.n as u64;
}

// The banks, read into five columns.
fn load(
    banks: &[u64],
    codes: &mut [u64],
    flags: &mut [u64],
    balances: &mut [u64],
    sublimits: &mut [u64],
    sheet: &mut [u64],
)
    requires banks_len { length banks.now ≡ banks_length }
    requires lengths { Lengths codes.old flags.old balances.old sublimits.old }
    requires sheet_len { length sheet.old ≡ sheet_length }
    ensures { Columns (banks_in banks.now)
        codes.new flags.new balances.new sublimits.new sheet.new }
{
    for i in 0..BANKS {
        let bank = BANK_WORDS * i;
        codes[i] = banks[bank + BANK_CODE];
        flags[i] = banks[bank + BANK_FLAGS];
        balances[i] = banks[bank + BANK_BALANCE];
        sublimits[i] = banks[bank + BANK_SUBLIMIT];
        sheet[i] = banks[bank + BANK_WAITING];
    }
}

// The columns, stored back into the banks.
fn save(
    banks: &mut [u64],
    codes: &[u64],
    flags: &[u64],
    balances: &[u64],
    sublimits: &[u64],
    sheet: &[u64],
)
    requires banks_len { length banks.old ≡ banks_length }
    requires lengths { Lengths codes.now flags.now balances.now sublimits.now }
    requires sheet_len { length sheet.now ≡ sheet_length }
    ensures { Columns (banks_in banks.new)
        codes.now flags.now balances.now sublimits.now sheet.now }
{
    for i in 0..BANKS {
        let bank = BANK_WORDS * i;
        banks[bank + BANK_CODE] = codes[i];
        banks[bank + BANK_FLAGS] = flags[i];
        banks[bank + BANK_BALANCE] = balances[i];
        banks[bank + BANK_SUBLIMIT] = sublimits[i];
        banks[bank + BANK_WAITING] = sheet[i];
    }
}

// A call on 64 banks, the desk by value.
fn call_banks(
    quick: bool,
    clock: u64,
    action: Action,
    input: &[u8],
    desk: Desk,
    banks: &mut [u64],
    batches: &mut [u64],
    references: &mut [u64],
    bins: &mut [u64],
    out: &mut [u8],
    tries: &mut [u64],
) -> Told
    requires { length banks.old ≡ banks_length }
    ensures { Called
        (lent_as desk (tables_in (banks_in banks.old) batches.old references.old bins.old)
        out.old tries.old)
        (record { quick = quick; clock = clock; action = action; input = input.now })
        (left_as result.answer result.written result.tried result.desk
        (tables_in (banks_in banks.new) batches.new references.new bins.new)
        out.new tries.new) }
{
    let mut codes = [0u64; 64];
    let mut flags = [0u64; 64];
    let mut balances = [0u64; 64];
    let mut sublimits = [0u64; 64];
    let mut sheet = [0u64; 64];
    load(
        banks,
        &mut codes,
        &mut flags,
        &mut balances,
        &mut sublimits,
        &mut sheet,
    );
    let told = call::entry::call(
        quick,
        clock,
        action,
        input,
        desk,
        &mut codes,
        &mut flags,
        &mut balances,
        &mut sublimits,
        batches,
        references,
        bins,
        &mut sheet,
        out,
        tries,
    );
    save(banks, &codes, &flags, &balances, &sublimits, &sheet);
    told
}

fn write_report(report: &mut [u64], written: usize, tried: usize)
    requires { 2 ≤ length report.old }
    ensures { report.new ≡ sets report.old 0 (written ∷ tried ∷ []) }
{
    report[REPORT_WRITTEN] = written as u64;
    report[REPORT_TRIED] = tried as u64;
}

// A call on rows of the right shape.
fn call_on(
    quick: bool,
    clock: u64,
    action: Action,
    input: &[u8],
    desk: &mut [u64],
    banks: &mut [u64],
    batches: &mut [u64],
    references: &mut [u64],
    bins: &mut [u64],
    out: &mut [u8],
    tries: &mut [u64],
    report: &mut [u64],
) -> u64
    requires shaped { Shaped desk.old banks.old }
    requires in_bounds { 2 ≤ length report.old }
    ensures { Shows
        (lent_words desk.old banks.old batches.old references.old bins.old
        out.old tries.old report.old)
        (record { quick = quick; clock = clock; action = action; input = input.now })
        (record {
          number = result;
          words =
              lent_words desk.new banks.new batches.new references.new bins.new
              out.new tries.new report.new;
        }) }
{
    let before = read_desk(desk);
    let told = call_banks(
        quick, clock, action, input, before, banks, batches, references, bins, out, tries,
    );
    write_desk(desk, told.desk);
    write_report(report, told.written, told.tried);
    model::number_of(told.answer)
}

fn action_of(number: u64, first: u64, second: u64, third: u64, fourth: u64) -> Action
    ensures { result ≡ action_by number first second third fourth }
{
    if number == ACTION_OPENING {
        return Action::Opening;
    }
    if number == ACTION_MESSAGE {
        return Action::Message(first);
    }
    if number == ACTION_SUBLIMIT {
        return Action::SubLimit(first, second);
    }
    if number == ACTION_STATUS {
        let bin = Code {
            high: second,
            low: third,
        };
        return Action::Status(first, bin, fourth);
    }
    if number == ACTION_TICK {
        return Action::Tick;
    }
    if number == ACTION_CLOSE {
        return Action::Close;
    }
    if number == ACTION_CLOSING_BOOK {
        return Action::ClosingBook(first);
    }
    Action::ClosingBook(0)
}

fn shape_right(desk: &[u64], banks: &[u64]) -> bool
    ensures { Says (Shaped desk.now banks.now) result }
{
    if desk.len() != DESK_WORDS {
        return false;
    }
    if PHASE_CLOSED < desk[DESK_PHASE] {
        return false;
    }
    banks.len() == BANKS * BANK_WORDS
}

// A call of the engine, clearing apart: its answer's number. A report of fewer than two words is 07,
// a desk or banks of another length or a phase that is none 06, with nothing changed.
pub fn purmagheli_call_rows(
    quick: u64,
    clock: u64,
    action: u64,
    first: u64,
    second: u64,
    third: u64,
    fourth: u64,
    input: &[u8],
    desk: &mut [u64],
    banks: &mut [u64],
    batches: &mut [u64],
    references: &mut [u64],
    bins: &mut [u64],
    out: &mut [u8],
    tries: &mut [u64],
    report: &mut [u64],
) -> u64
    ensures { CalledWords
        (lent_words desk.old banks.old batches.old references.old bins.old
        out.old tries.old report.old)
        (asks quick clock action first second third fourth input.now)
        (record {
          number = result;
          words =
              lent_words desk.new banks.new batches.new references.new bins.new
              out.new tries.new report.new;
        }) }
{
    if report.len() < REPORT_WORDS {
        return Refusal::ShortBuffer.number();
    }
    if !shape_right(desk, banks) {
        return Refusal::BrokenTables.number();
    }
    let asked = action_of(action, first, second, third, fourth);
    call_on(
        quick != 0,
        clock,
        asked,
        input,
        desk,
        banks,
        batches,
        references,
        bins,
        out,
        tries,
        report,
    )
}

fn rows_long(desk: &[u64], banks: &[u64], batches: &[u64], references: &[u64], bins: &[u64]) -> bool
    ensures { Says (LongWords
        (engine_words desk.now banks.now batches.now references.now bins.now)) result }
{
    if desk.len() != DESK_WORDS {
        return false;
    }
    if banks.len() != BANKS * BANK_WORDS {
        return false;
    }
    if batches.len() != BATCHES * BATCH_WORDS {
        return false;
    }
    if references.len() != REFERENCES * REFERENCE_WORDS {
        return false;
    }
    bins.len() == BINS * BIN_WORDS
}

// "A fresh start": all zero. Rows of another length are 06, with nothing changed.
pub fn purmagheli_clear_rows(
    desk: &mut [u64],
    banks: &mut [u64],
    batches: &mut [u64],
    references: &mut [u64],
    bins: &mut [u64],
) -> u64
    ensures { ClearedWords
        (engine_words desk.old banks.old batches.old references.old bins.old)
        (record {
          number = result;
          words =
              engine_words desk.new banks.new batches.new references.new bins.new;
        }) }
{
    if !rows_long(desk, banks, batches, references, bins) {
        return Refusal::BrokenTables.number();
    }
    tables::places::clear(desk);
    tables::places::clear(banks);
    tables::places::clear(batches);
    tables::places::clear(references);
    tables::places::clear(bins);
    0
}
