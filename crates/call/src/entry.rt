// The engine's calls, all but clearing: one function, with an action.
ghost use Rattle.std.specs.Prelude.{◌≡◌, ℕ, length, Err};
ghost use Rattle.model.specs.Kinds.{kind_of};
ghost use Rattle.model.specs.Calls.{performed};
ghost use Rattle.tables.specs.Moment.{call_for, lent_on};
ghost use Rattle.tables.specs.Rows.{engine_in};
ghost use Rattle.tables.specs.Lent.{left_by, Called};
ghost use Rattle.call.specs.step.Stepping.{lent_as, left_as};
ghost use Rattle.call.specs.entry.Calls.{kind_by, Performable};

use crate::step::Told;
use chars::Refusal;
use model::Action;
use tables::Desk;

// What an action does: it opens a day, takes the steps (a) to (d), or gives a book of a date.
#[derive(Clone, Copy)]
pub enum Kind {
    Opens,
    Steps,
    Gives(u64),
}

fn kind_of(action: Action) -> Kind
    ensures { kind_by result ≡ kind_of action }
{
    match action {
        Action::Opening => Kind::Opens,
        Action::ClosingBook(date) => Kind::Gives(date),
        _ => Kind::Steps,
    }
}

// A refusal that changes nothing.
fn refused(refusal: Refusal, kept: Desk) -> Told
    ensures { result ≡ record { answer = Err refusal; written = 0; tried = 0; desk = kept } }
{
    Told {
        answer: Err(refusal),
        written: 0,
        tried: 0,
        desk: kept,
    }
}

// A call on tables that keep the rules, at its moment and with its room.
#[inline(never)]
fn perform(
    quick: bool,
    clock: u64,
    action: Action,
    input: &[u8],
    desk: Desk,
    codes: &mut [u64],
    flags: &mut [u64],
    balances: &mut [u64],
    sublimits: &mut [u64],
    batches: &mut [u64],
    references: &mut [u64],
    bins: &mut [u64],
    sheet: &mut [u64],
    out: &mut [u8],
    tries: &mut [u64],
) -> Told
    requires { Performable desk
        (lent_on codes.old flags.old balances.old sublimits.old batches.old references.old bins.old sheet.old)
        clock action out.old tries.old }
    ensures { left_as result.answer result.written result.tried result.desk
        (lent_on codes.new flags.new balances.new sublimits.new
        batches.new references.new bins.new sheet.new)
        out.new tries.new
        ≡ left_by (lent_as desk
        (lent_on codes.old flags.old balances.old sublimits.old
        batches.old references.old bins.old sheet.old)
        out.old tries.old)
        (performed (kind_of action) (engine_in desk
        (lent_on codes.old flags.old balances.old sublimits.old
        batches.old references.old bins.old sheet.old))
        (call_for quick clock action input.now (length out.old) (length tries.old))) }
{
    let kind = kind_of(action);
    match kind {
        Kind::Opens => {
            let begun = call_day::open_day(desk, clock, codes, flags, balances, sublimits, input);
            Told {
                answer: begun.answer,
                written: 0,
                tried: 0,
                desk: begun.desk,
            }
        }
        Kind::Steps => {
            let told = crate::step::step(
                quick, clock, action, input, desk, codes, flags, balances, sublimits, batches,
                references, bins, out, tries,
            );
            tables_sheet::fill(batches, sheet);
            told
        }
        Kind::Gives(date) => {
            let written = call_day::give_book(desk, codes, flags, balances, sublimits, date, out);
            let moved = tables::moment::moved(desk, clock);
            Told {
                answer: Ok(()),
                written,
                tried: 0,
                desk: moved,
            }
        }
    }
}

// 06, then 05, then 07, with nothing changed; else the action is performed.
pub fn call(
    quick: bool,
    clock: u64,
    action: Action,
    input: &[u8],
    desk: Desk,
    codes: &mut [u64],
    flags: &mut [u64],
    balances: &mut [u64],
    sublimits: &mut [u64],
    batches: &mut [u64],
    references: &mut [u64],
    bins: &mut [u64],
    sheet: &mut [u64],
    out: &mut [u8],
    tries: &mut [u64],
) -> Told
    ensures { Called
        (lent_as desk
        (lent_on codes.old flags.old balances.old sublimits.old
        batches.old references.old bins.old sheet.old)
        out.old tries.old)
        (record { quick = quick; clock = clock; action = action; input = input.now })
        (left_as result.answer result.written result.tried result.desk
        (lent_on codes.new flags.new balances.new sublimits.new
        batches.new references.new bins.new sheet.new)
        out.new tries.new) }
{
    if !tables_sheet::tables_right(
        desk, codes, flags, balances, sublimits, batches, references, bins, sheet,
    ) {
        return refused(Refusal::BrokenTables, desk);
    }
    let judged = tables::moment::judge(desk, clock, action, out.len(), tries.len());
    match judged {
        Err(refusal) => refused(refusal, desk),
        Ok(()) => perform(
            quick, clock, action, input, desk, codes, flags, balances, sublimits, batches,
            references, bins, sheet, out, tries,
        ),
    }
}
