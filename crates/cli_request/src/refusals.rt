// The line of an account that says what a line of its text says.
ghost use Rattle.std.specs.Prelude.{◌≡◌, ◌+◌, ◌≤◌};
ghost use Rattle.cli_request.specs.Refusals.{lines_of, payment_of, account_line};

use request_read::terms::Activation;
use request_write::{Order, Payable, Side};

// Lines of a payment in a text: 113 stands after DR alone.
fn lines_of(side: Side) -> usize
    ensures value { result ≡ lines_of side }
    ensures small { result ≤ 4 }
{
    match side {
        Side::Credit => 3,
        Side::Debit(_) => 4,
    }
}

// Which of n payments has a line, where the first of them begins at line `from`; the one after them for a line behind them all.
fn payment_of(payments: [Payable; 10], n: usize, from: usize, line: usize) -> usize
    requires { from ≤ 9 }
    ensures value { result ≡ payment_of payments n from line }
    ensures small { result ≤ 10 }
{
    let most = n.min(10);
    let mut end = from;
    for k in 0..most {
        end += lines_of(payments[k].side);
        if line < end {
            return k;
        }
    }
    most
}

// Counted from the account's first line, which names the sub type; line 1 of a text is that of 20.
pub fn account_line(o: Order, line: usize) -> usize
    ensures { result ≡ account_line o line }
{
    let heads = [1usize, 2, 1, 3, 3, 4, 5, 6];
    if line < 8 {
        return heads[line];
    }
    let payments = o.payments;
    match o.activation {
        Activation::AtOnce => 8 + payment_of(payments, o.n, 8, line),
        Activation::Minute(_) => {
            if line == 8 {
                return 7;
            }
            8 + payment_of(payments, o.n, 9, line)
        }
    }
}
