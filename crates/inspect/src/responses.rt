// The account of a response.
use cli_files::Console;
use response_read::{Parts, Reply};
use response_write::{Answer, Outcome, Recall, Settlement};
use text_fields::Break;
use text_values::Part;

fn part(console: &Console, s: &[u8], name: &str, p: Part) {
    crate::named(console, name, text_values::text_of(s, p));
}

fn show_number(console: &Console, s: &[u8], p: Parts) {
    let subtype = p.subtype;
    let number = p.number;
    let reference = p.reference;
    part(console, s, "accepted", subtype);
    part(console, s, "number", number);
    part(console, s, "reference", reference);
}

fn show_settled(console: &Console, day: u64, second: u64) {
    let date = dates::date_of(day);
    let time = clock::hhmmss_of(second);
    cli_print::line(console, format_args!("settled {date:06} {time:06}"));
}

fn show_rejected(console: &Console, number: u64) {
    cli_print::line(console, format_args!("rejected {number:02}"));
}

fn show_settlement(console: &Console, s: &[u8], p: Parts, r: Settlement) {
    let stream = p.stream;
    let bin = p.bin;
    let outcome = r.outcome;
    show_number(console, s, p);
    part(console, s, "stream", stream);
    part(console, s, "bin", bin);
    match outcome {
        Outcome::Settled(day, second) => show_settled(console, day, second),
        Outcome::Rejected(number) => show_rejected(console, number),
    }
}

fn show_recall(console: &Console, s: &[u8], p: Parts, r: Recall) {
    let answer = r.answer;
    show_number(console, s, p);
    match answer {
        Answer::Recalled => cli_print::line(console, "recalled"),
        Answer::Kept(number) => show_rejected(console, number),
    }
}

// The number, and where and why the text breaks.
fn show_refusal(console: &Console, s: &[u8], b: Break) {
    let why = b.refusal;
    cli_print::refused(console, why);
    cli_explain::show_break(console, s, b.at, text_explain::response_break(s, b));
}

pub fn show(console: &Console, s: &[u8]) {
    let r = response_read::read_response(s);
    let reply = r.reply;
    let parts = r.parts;
    match reply {
        Reply::Settlement(x) => show_settlement(console, s, parts, x),
        Reply::Recall(x) => show_recall(console, s, parts, x),
        Reply::Refused(b) => show_refusal(console, s, b),
    }
}
