// Reads orders from standard input, each in 717 bytes, and writes on standard output what the request writer
// answers to each, and the text: into a buffer of points, from its fourth byte on.
//
// An order: sub type, 18 digits; reference, 16 bytes filled up with zeros; stream; BIN, 16 bytes; number; count;
// date; activation, 0 or the minute and 1; payments; the buffer's length; ten times the side, 0 for a credit or
// the letters and 1, the cents and the bank; a line feed. Numbers have 18 digits.
#![tactic(auto)]

ghost use Rattle.std.specs.Prelude.{◌≤◌};

use chars::Refusal;
use codes::Code;
use request_read::terms::Activation;
use request_write::{Order, Payable, Side};
use std::io;
use std::io::Read;

const RECORD: usize = 717;

// Where the text is to stand.
const PLACE: usize = 3;

fn number(s: &[u8], at: usize) -> u64 {
    let r = text_scan::digits(s, at, 18);
    r.value
}

fn activation(v: u64) -> Activation {
    if v == 0 {
        return Activation::AtOnce;
    }
    Activation::Minute(v - 1)
}

fn side(v: u64) -> Side {
    if v == 0 {
        return Side::Credit;
    }
    Side::Debit(v - 1)
}

fn line(s: &[u8], at: usize) -> Payable
    requires { at ≤ 717 }
{
    let side = side(number(s, at));
    Payable {
        side,
        cents: number(s, at + 18),
        bank: number(s, at + 36),
    }
}

fn lines(s: &[u8]) -> [Payable; 10] {
    let none = Payable {
        side: Side::Credit,
        cents: 0,
        bank: 0,
    };
    let mut all = [none; 10];
    for (i, payable) in all.iter_mut().enumerate() {
        *payable = line(s, 176 + 54 * i);
    }
    all
}

fn order(s: &[u8]) -> Order {
    let reference = codes::long_code(s, 18, Code::LONGEST);
    let bin = codes::long_code(s, 52, Code::LONGEST);
    let activation = activation(number(s, 122));
    let payments = lines(s);
    Order {
        subtype: number(s, 0),
        reference,
        stream: number(s, 34),
        bin,
        number: number(s, 68),
        count: number(s, 86),
        date: number(s, 104),
        activation,
        payments,
        n: number(s, 140) as usize,
    }
}

fn tell(rt: &impl Print, written: Result<usize, Refusal>) -> io::Result<()> {
    match written {
        Ok(e) => println!(rt; "written to {e}"),
        Err(why) => println!(rt; "refused {}", why.number()),
    }
}

fn show(rt: &impl Print, s: &[u8], out: &mut [u8]) -> io::Result<()> {
    tell(rt, request_write::write_request(out, PLACE, order(s)))?;
    rt.write_all(out)?;
    rt.write_all(b"\n")
}

// The next order; whether there was one.
fn one_order(rt: &impl Print, from: &mut impl Read) -> io::Result<bool> {
    let mut record = [0u8; RECORD];
    if !cli_files::take_all(from, &mut record)? {
        return Ok(false);
    }
    let mut out = [b'.'; 1200];
    if let Some(place) = out.get_mut(..number(&record, 158) as usize) {
        show(rt, &record, place)?;
    }
    Ok(true)
}

fn main(rt: HostRuntime) -> io::Result<()> {
    for _ in 0..1000 {
        if !one_order(&rt, &mut rt.stdin())? {
            return Ok(());
        }
    }
    Ok(())
}
