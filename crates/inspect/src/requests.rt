// The account of a request.
use cli_files::Console;
use cli_print::{Letters, ShortCode};
use request_read::payments::Payment;
use request_read::terms::{Activation, Terms};
use request_read::whole::{Head, Outcome, Reading};
use text_fields::Break;

fn show_head(console: &Console, s: &[u8], h: Head) {
    let address = h.address;
    crate::named(
        console,
        "accepted",
        request_read::parts::sub_type_text(s, h),
    );
    crate::named(
        console,
        "reference",
        request_read::parts::reference_text(s, h),
    );
    crate::named(
        console,
        "stream",
        request_read::parts::stream_text(s, address),
    );
    crate::named(console, "bin", request_read::parts::bin_text(s, address));
}

fn show_activation(console: &Console, s: &[u8], t: Terms) {
    let activation = t.activation;
    match activation {
        Activation::AtOnce => crate::named(console, "activation", b"none"),
        Activation::Minute(_) => crate::named(
            console,
            "activation",
            request_read::parts::activation_text(s, t),
        ),
    }
}

fn show_terms(console: &Console, s: &[u8], t: Terms) {
    crate::named(console, "message", request_read::parts::numbers_text(s, t));
    crate::named(console, "date", request_read::parts::date_text(s, t));
    show_activation(console, s, t);
}

fn show_payment(console: &Console, p: Payment) {
    let cents = p.amount.number;
    let bank = ShortCode(p.bank.number);
    if p.side.number != 0 {
        let letters = Letters(p.letters.number);
        cli_print::line(console, format_args!("payment DR {cents} {bank} {letters}"));
        return;
    }
    cli_print::line(console, format_args!("payment CR {cents} {bank}"));
}

fn show_settlement(console: &Console, s: &[u8], r: Reading) {
    let head = r.head;
    let terms = r.terms;
    let payments = r.payments;
    show_head(console, s, head);
    show_terms(console, s, terms);
    for &p in payments.iter().take(r.n) {
        show_payment(console, p);
    }
}

// The number, and where and why the text breaks.
fn show_refusal(console: &Console, s: &[u8], b: Break) {
    let why = b.refusal;
    cli_print::refused(console, why);
    cli_explain::show_break(console, s, b.at, text_explain::request_break(s, b));
}

pub fn show(console: &Console, s: &[u8]) {
    let r = request_read::whole::read_request(s);
    let outcome = r.outcome;
    let head = r.head;
    match outcome {
        Outcome::Settlement => show_settlement(console, s, r),
        Outcome::Recall => show_head(console, s, head),
        Outcome::Refused(b) => show_refusal(console, s, b),
    }
}
