// Sub-limit changes and status changes.
#![tactic(auto)]

mod debits;

ghost use Rattle.std.specs.Prelude.{◌≡◌, ◌≤◌, length};
ghost use Rattle.model.specs.State.{State};
ghost use Rattle.model.specs.Changes.{sub_limit, status};
ghost use Rattle.model.proofs.Standing.{Stood};
ghost use Rattle.call_orders.specs.Stages.{seen, Ready};
ghost use Rattle.call_change.specs.Changing.{Changed};

use call_plan::rules::places;
use chars::Refusal;
use codes::Code;
use settle::Bank;

// "A sub-limit change for an unknown bank gives 76, then 14."
pub fn sub_limit(
    codes: &[u64],
    banks: usize,
    sublimits: &mut [u64],
    memory: &mut [u64],
    code: u64,
    cents: u64,
) -> Result<(), Refusal>
    requires { (banks ≤ length codes.now) × (banks ≤ length sublimits.old) }
    ensures { (s : State) → s.house.banks ≡ banks → s.house.codes ≡ codes.now → s.books.sublimits ≡ sublimits.old → Changed s (sub_limit s code cents) result s.batches sublimits.new memory.old memory.new }
{
    let bank = places::bank_place(codes, banks, code).ok_or(Refusal::UnknownBank)?;
    if Bank::RICHEST < cents {
        return Err(Refusal::OutOfRange);
    }
    sublimits[bank] = cents;
    queue::wake_bank(memory, bank as u64);
    Ok(())
}

// "A status change names bank, BIN and letter: not A, D or P 80; unknown bank 76; no pending or queued batch of that BIN with a debit of
// that bank 02; else that debit's ESA letter is changed."
pub fn status(
    codes: &[u64],
    banks: usize,
    batches: &mut [u64],
    queue: &[u64],
    nq: usize,
    pending: &[u64],
    nw: usize,
    memory: &mut [u64],
    code: u64,
    bin: Code,
    letter: u64,
) -> Result<(), Refusal>
    requires { Ready batches.old queue.now nq pending.now nw × Stood banks (seen batches.old queue.now nq pending.now nw) × (banks ≤ length codes.now) }
    ensures { Ready batches.new queue.now nq pending.now nw × ((s : State) → s.house.banks ≡ banks → s.house.codes ≡ codes.now → s.batches ≡ seen batches.old queue.now nq pending.now nw → Changed s (status s code bin letter) result (seen batches.new queue.now nq pending.now nw) s.books.sublimits memory.old memory.new) }
{
    if !debits::is_esa(letter) {
        return Err(Refusal::WrongEsa);
    }
    let payer = places::bank_place(codes, banks, code).ok_or(Refusal::UnknownBank)?;
    let debit = debits::waiting_debit(batches, queue, nq, pending, nw, payer, bin);
    let place = debit.ok_or(Refusal::NothingThere)?;
    debits::reletter_at(batches, place, payer as u64, letter);
    queue::wake_batch(memory, place);
    Ok(())
}
