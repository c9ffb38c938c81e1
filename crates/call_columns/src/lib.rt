// The calls on a row of records that is passed by value and handed back, and on accounts in five columns.
#![tactic(auto)]

pub mod columns;

ghost use Rattle.std.specs.Prelude.{◌≡◌, ℕ};
ghost use Rattle.tables.specs.Lent.{Called, Cleared};
ghost use Rattle.call.specs.step.Stepping.{lent_as, left_as};
ghost use Rattle.call_records.specs.Records.{tables_in};

use call::step::Told;
use call_records::Account;
use model::Action;
use tables::Desk;
use tables_clear::Start;

// What a call tells, and the row that it leaves.
#[derive(Clone, Copy)]
pub struct RowTold {
    pub told: Told,
    pub row: [Account; 64],
}

// A call on a row that is passed by value and handed back: the row is lent to `call_records::call`.
pub fn call_row(
    quick: bool,
    clock: u64,
    action: Action,
    input: &[u8],
    desk: Desk,
    mut row: [Account; 64],
    batches: &mut [u64],
    references: &mut [u64],
    bins: &mut [u64],
    out: &mut [u8],
    tries: &mut [u64],
) -> RowTold
    ensures { Called
        (lent_as desk (tables_in row batches.old references.old bins.old) out.old tries.old)
        (record { quick = quick; clock = clock; action = action; input = input.now })
        (left_as result.told.answer result.told.written result.told.tried result.told.desk
        (tables_in result.row batches.new references.new bins.new) out.new tries.new) }
{
    let told = call_records::call(
        quick, clock, action, input, desk, &mut row, batches, references, bins, out, tries,
    );
    RowTold { told, row }
}

// What a clearing answers, and the row that it leaves.
#[derive(Clone, Copy)]
pub struct RowStart {
    pub start: Start,
    pub row: [Account; 64],
}

// A clearing of a row that is passed by value and handed back: the row is lent to `call_records::clear`.
pub fn clear_row(
    desk: Desk,
    mut row: [Account; 64],
    batches: &mut [u64],
    references: &mut [u64],
    bins: &mut [u64],
) -> RowStart
    ensures { Cleared desk
        (tables_in row batches.old references.old bins.old)
        (record {
          answer = result.start.answer;
          desk = result.start.desk;
          tables = tables_in result.row batches.new references.new bins.new;
        }) }
{
    let start = call_records::clear(desk, &mut row, batches, references, bins);
    RowStart { start, row }
}
