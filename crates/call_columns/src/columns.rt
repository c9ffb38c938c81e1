// The calls on accounts in five columns, made on a row of records: the row is made of the columns, passed, and taken apart again.
ghost use Rattle.std.specs.Prelude.{◌≡◌, ℕ, length};
ghost use Rattle.tables.specs.House.{Lengths};
ghost use Rattle.tables.specs.Lent.{Called, Cleared};
ghost use Rattle.tables.specs.Moment.{lent_on};
ghost use Rattle.tables.specs.Words.{sheet_length};
ghost use Rattle.call.specs.step.Stepping.{lent_as, left_as};
ghost use Rattle.call_records.specs.Records.{Columns};

use call::step::Told;
use call_records::Account;
use model::Action;
use tables::Desk;
use tables_clear::Start;

// The row of five columns.
fn row_of(
    codes: &[u64],
    flags: &[u64],
    balances: &[u64],
    sublimits: &[u64],
    sheet: &[u64],
) -> [Account; 64]
    requires lengths { Lengths codes.now flags.now balances.now sublimits.now }
    requires sheet_len { length sheet.now ≡ sheet_length }
    ensures { Columns result
        codes.now flags.now balances.now sublimits.now sheet.now }
{
    let none = Account {
        code: 0,
        flags: 0,
        balance: 0,
        sublimit: 0,
        waiting: 0,
    };
    let mut row = [none; 64];
    call_records::save(&mut row, codes, flags, balances, sublimits, sheet);
    row
}

// A call of the engine, clearing apart.
pub fn call(
    quick: bool,
    clock: u64,
    action: Action,
    input: &[u8],
    desk: Desk,
    codes: &mut [u64; 64],
    flags: &mut [u64; 64],
    balances: &mut [u64; 64],
    sublimits: &mut [u64; 64],
    batches: &mut [u64],
    references: &mut [u64],
    bins: &mut [u64],
    sheet: &mut [u64; 64],
    out: &mut [u8],
    tries: &mut [u64],
) -> Told
    ensures { Called
        (lent_as desk
        (lent_on codes.old flags.old balances.old sublimits.old
        batches.old references.old bins.old sheet.old)
        out.old tries.old)
        (record { quick = quick; clock = clock; action = action; input = input.now })
        (left_as result.answer result.written result.tried result.desk
        (lent_on codes.new flags.new balances.new sublimits.new
        batches.new references.new bins.new sheet.new)
        out.new tries.new) }
{
    let row = row_of(codes, flags, balances, sublimits, sheet);
    let left = crate::call_row(
        quick, clock, action, input, desk, row, batches, references, bins, out, tries,
    );
    let after = left.row;
    call_records::load(&after, codes, flags, balances, sublimits, sheet);
    let told = left.told;
    told
}

// "A fresh start".
pub fn clear(
    desk: Desk,
    codes: &mut [u64; 64],
    flags: &mut [u64; 64],
    balances: &mut [u64; 64],
    sublimits: &mut [u64; 64],
    batches: &mut [u64],
    references: &mut [u64],
    bins: &mut [u64],
    sheet: &mut [u64; 64],
) -> Start
    ensures { Cleared desk
        (lent_on codes.old flags.old balances.old sublimits.old
        batches.old references.old bins.old sheet.old)
        (record {
          answer = result.answer;
          desk = result.desk;
          tables =
              lent_on codes.new flags.new balances.new sublimits.new
              batches.new references.new bins.new sheet.new;
        }) }
{
    let row = row_of(codes, flags, balances, sublimits, sheet);
    let left = crate::clear_row(desk, row, batches, references, bins);
    let after = left.row;
    call_records::load(&after, codes, flags, balances, sublimits, sheet);
    let start = left.start;
    start
}
