// The calls on accounts that are lent as a row of records.
#![tactic(auto)]

ghost use Rattle.std.specs.Prelude.{◌≡◌, ℕ, length, Err};
ghost use Rattle.chars.specs.declared.Refusal.TheVariants.{BrokenTables};
ghost use Rattle.tables.specs.Lent.{Called, Cleared};
ghost use Rattle.call.specs.step.Stepping.{lent_as, left_as};
ghost use Rattle.call_records.specs.Records.{account_or, tables_in, Columns, Long};

use call::step::Told;
use chars::Refusal;
use model::Action;
use tables::Desk;
use tables_clear::Start;

// A bank's account: its code, its flag and stream bits, its balance and its sub-limit in cents.
// `waiting` is the total of the bank's debits in pending and queued batches, in cents.
#[derive(Clone, Copy)]
pub struct Account {
    pub code: u64,
    pub flags: u64,
    pub balance: u64,
    pub sublimit: u64,
    pub waiting: u64,
}

impl Account {
    // The records of a row.
    pub const ROW: usize = 64;
    // Four characters as one number stop here.
    pub const LAST_CODE: u64 = 4_294_967_295;
    // The suspension, and the bits of eight streams.
    pub const LAST_FLAGS: u64 = 511;

    // An account against which nothing waits.
    pub fn new(code: u64, flags: u64, balance: u64, sublimit: u64) -> Result<Account, Refusal>
        ensures { result ≡ account_or code flags balance sublimit }
    {
        if Account::LAST_CODE < code {
            return Err(Refusal::OutOfRange);
        }
        if Account::LAST_FLAGS < flags {
            return Err(Refusal::OutOfRange);
        }
        let bank = settle::Bank::new(balance, sublimit)?;
        let account = Account {
            code,
            flags,
            balance: bank.balance,
            sublimit: bank.sublimit,
            waiting: 0,
        };
        Ok(account)
    }
}

// The records, read into five columns.
pub fn load(
    row: &[Account],
    codes: &mut [u64],
    flags: &mut [u64],
    balances: &mut [u64],
    sublimits: &mut [u64],
    sheet: &mut [u64],
)
    requires { Long row.now codes.old flags.old balances.old sublimits.old sheet.old }
    ensures { Columns row.now
        codes.new flags.new balances.new sublimits.new sheet.new }
{
    for i in 0..Account::ROW {
        codes[i] = row[i].code;
        flags[i] = row[i].flags;
        balances[i] = row[i].balance;
        sublimits[i] = row[i].sublimit;
        sheet[i] = row[i].waiting;
    }
}

// The columns, stored back into the records.
pub fn save(
    row: &mut [Account],
    codes: &[u64],
    flags: &[u64],
    balances: &[u64],
    sublimits: &[u64],
    sheet: &[u64],
)
    requires { Long row.old codes.now flags.now balances.now sublimits.now sheet.now }
    ensures { Columns row.new
        codes.now flags.now balances.now sublimits.now sheet.now }
{
    for i in 0..Account::ROW {
        row[i].code = codes[i];
        row[i].flags = flags[i];
        row[i].balance = balances[i];
        row[i].sublimit = sublimits[i];
        row[i].waiting = sheet[i];
    }
}

// 06 for a row of another length, with nothing changed.
fn no_call(desk: Desk) -> Told
    ensures { result ≡ record { answer = Err BrokenTables; written = 0; tried = 0; desk = desk } }
{
    Told {
        answer: Err(Refusal::BrokenTables),
        written: 0,
        tried: 0,
        desk,
    }
}

fn no_start(desk: Desk) -> Start
    ensures { result ≡ record { answer = Err BrokenTables; desk = desk } }
{
    Start {
        answer: Err(Refusal::BrokenTables),
        desk,
    }
}

// A call on a row of 64 records.
fn call_on(
    quick: bool,
    clock: u64,
    action: Action,
    input: &[u8],
    desk: Desk,
    row: &mut [Account],
    batches: &mut [u64],
    references: &mut [u64],
    bins: &mut [u64],
    out: &mut [u8],
    tries: &mut [u64],
) -> Told
    requires { length row.old ≡ 64 }
    ensures { Called
        (lent_as desk (tables_in row.old batches.old references.old bins.old)
        out.old tries.old)
        (record { quick = quick; clock = clock; action = action; input = input.now })
        (left_as result.answer result.written result.tried result.desk
        (tables_in row.new batches.new references.new bins.new)
        out.new tries.new) }
{
    let mut codes = [0u64; 64];
    let mut flags = [0u64; 64];
    let mut balances = [0u64; 64];
    let mut sublimits = [0u64; 64];
    let mut sheet = [0u64; 64];
    load(
        row,
        &mut codes,
        &mut flags,
        &mut balances,
        &mut sublimits,
        &mut sheet,
    );
    let told = call::entry::call(
        quick,
        clock,
        action,
        input,
        desk,
        &mut codes,
        &mut flags,
        &mut balances,
        &mut sublimits,
        batches,
        references,
        bins,
        &mut sheet,
        out,
        tries,
    );
    save(row, &codes, &flags, &balances, &sublimits, &sheet);
    told
}

// A call of the engine, clearing apart.
pub fn call(
    quick: bool,
    clock: u64,
    action: Action,
    input: &[u8],
    desk: Desk,
    row: &mut [Account],
    batches: &mut [u64],
    references: &mut [u64],
    bins: &mut [u64],
    out: &mut [u8],
    tries: &mut [u64],
) -> Told
    ensures { Called
        (lent_as desk (tables_in row.old batches.old references.old bins.old)
        out.old tries.old)
        (record { quick = quick; clock = clock; action = action; input = input.now })
        (left_as result.answer result.written result.tried result.desk
        (tables_in row.new batches.new references.new bins.new)
        out.new tries.new) }
{
    if row.len() != Account::ROW {
        return no_call(desk);
    }
    call_on(
        quick, clock, action, input, desk, row, batches, references, bins, out, tries,
    )
}

// A clearing of a row of 64 records.
fn clear_on(
    desk: Desk,
    row: &mut [Account],
    batches: &mut [u64],
    references: &mut [u64],
    bins: &mut [u64],
) -> Start
    requires { length row.old ≡ 64 }
    ensures { Cleared desk
        (tables_in row.old batches.old references.old bins.old)
        (record {
          answer = result.answer;
          desk = result.desk;
          tables =
              tables_in row.new batches.new references.new bins.new;
        }) }
{
    let mut codes = [0u64; 64];
    let mut flags = [0u64; 64];
    let mut balances = [0u64; 64];
    let mut sublimits = [0u64; 64];
    let mut sheet = [0u64; 64];
    load(
        row,
        &mut codes,
        &mut flags,
        &mut balances,
        &mut sublimits,
        &mut sheet,
    );
    let start = tables_clear::clear(
        desk,
        &mut codes,
        &mut flags,
        &mut balances,
        &mut sublimits,
        batches,
        references,
        bins,
        &mut sheet,
    );
    save(row, &codes, &flags, &balances, &sublimits, &sheet);
    start
}

// "A fresh start": all zero, no day, nothing remembered.
pub fn clear(
    desk: Desk,
    row: &mut [Account],
    batches: &mut [u64],
    references: &mut [u64],
    bins: &mut [u64],
) -> Start
    ensures { Cleared desk
        (tables_in row.old batches.old references.old bins.old)
        (record {
          answer = result.answer;
          desk = result.desk;
          tables =
              tables_in row.new batches.new references.new bins.new;
        }) }
{
    if row.len() != Account::ROW {
        return no_start(desk);
    }
    clear_on(desk, row, batches, references, bins)
}
