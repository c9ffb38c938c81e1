// Why a request would be refused, and the line of its account that says so.
use cli_explain::Words;
use cli_files::Console;
use cli_request::refusals;
use request_read::whole::Outcome;
use request_write::Order;
use text_explain::Told;
use text_fields::Break;

// `first` is the file's line of the account's sub type.
fn say_break(console: &Console, order: Order, first: usize, b: Break, told: Told) {
    let line = crate::file_line(first, refusals::account_line(order, told.line));
    let number = b.refusal.number();
    cli_files::tell(
        console,
        format_args!("line {line}: refused {number:02}, {}\n", Words(told.fault)),
    );
    cli_files::tell_refusal(console);
}

fn say_text(console: &Console, order: Order, first: usize, text: &[u8]) {
    let reading = request_read::whole::read_request(text);
    let outcome = reading.outcome;
    match outcome {
        Outcome::Refused(b) => say_break(
            console,
            order,
            first,
            b,
            text_explain::request_break(text, b),
        ),
        Outcome::Settlement => (),
        Outcome::Recall => (),
    }
}

// An order that its writer refuses.
pub fn say_order(console: &Console, order: Order, first: usize) {
    let mut text = [0u8; 2048];
    let n = request_write::put_order(&mut text, order);
    say_text(console, order, first, &text[..n]);
}
