// The payments of a message as words of a row: bank, cents, letters of each.
ghost use Rattle.std.specs.Prelude.{◌≡◌, [], ◌+◌, ◌*◌, ◌≤◌, ◌<◌, length, set, take};
ghost use Rattle.std.proofs.lemmas.List.Edits.{sets};
ghost use Rattle.model.specs.Messages.{arrived};
ghost use Rattle.call_orders.specs.Arriving.{message_of};
ghost use Rattle.call_plan.specs.rules.Steps.{place_or, line_words, state_of};

use crate::rules::places;
use request_read::payments::Payment;
use request_read::whole::Reading;

// 0 where there is no such bank.
fn place_or(codes: &[u64], banks: usize, code: u64) -> u64
    requires { banks ≤ length codes.now }
    ensures { result ≡ place_or banks codes.now code }
{
    places::bank_place(codes, banks, code).unwrap_or(0) as u64
}

fn put_line(words: &mut [u64], at: usize, codes: &[u64], banks: usize, line: Payment)
    requires { (at + 3 ≤ length words.old) × (banks ≤ length codes.now) }
    ensures { words.new ≡ set (set (set words.old at (place_or banks codes.now line.bank.number)) (at + 1) line.amount.number) (at + 2) line.letters.number }
{
    words[at] = place_or(codes, banks, line.bank.number);
    words[at + 1] = line.amount.number;
    words[at + 2] = line.letters.number;
}

fn put_lines(words: &mut [u64], codes: &[u64], banks: usize, lines: [Payment; 10], n: usize)
    requires { (3 * n ≤ length words.old) × (banks ≤ length codes.now) × (n ≤ 10) }
    ensures { (words.new ≡ sets words.old 0 (line_words banks codes.now (take n lines))) × (length (take n lines) ≡ n) }
{
    for i in 0..n {
        let line = lines[i];
        put_line(words, 3 * i, codes, banks, line);
    }
}

// The message that the words say is the one that arrived.
pub fn put_message(words: &mut [u64], codes: &[u64], banks: usize, r: Reading)
    requires { (30 ≤ length words.old) × (banks ≤ length codes.now) × (r.n ≤ 10) }
    ensures { message_of r.head.reference.code r.terms.number words.new r.n ≡ arrived (state_of 0 banks codes.now []) r }
{
    let payments = r.payments;
    put_lines(words, codes, banks, payments, r.n);
}
