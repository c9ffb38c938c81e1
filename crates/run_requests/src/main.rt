// Reads texts from standard input, each after its length in five digits and a line feed, and writes
// on a line for each what the reader of requests finds in it.
#![tactic(auto)]

use request_read::payments::Payment;
use request_read::terms::{Activation, Terms};
use request_read::whole::{Address, Head, Named, Outcome, Reached, Reading};
use std::io;
use std::io::Read;
use text_fields::{Break, Item};
use text_values::Part;

fn put_part(rt: &impl Print, p: Part) -> io::Result<()> {
    print!(rt; " {} {}", p.start, p.end)
}

fn put_item(rt: &impl Print, i: Item) -> io::Result<()> {
    put_part(rt, i.part)?;
    print!(rt; " {}", i.number)
}

fn put_named(rt: &impl Print, n: Named) -> io::Result<()> {
    put_part(rt, n.part)?;
    print!(rt; " {} {}", n.code.high, n.code.low)
}

fn put_break(rt: &impl Print, b: Break) -> io::Result<()> {
    let how = if b.missing { "missing" } else { "wrong" };
    print!(rt; " {} {} {how}", b.refusal.number(), b.at)
}

fn put_address(rt: &impl Print, a: Address) -> io::Result<()> {
    let reached = a.reached;
    let stream = a.stream;
    let bin = a.bin;
    match reached {
        Reached::Nothing => rt.write_all(b" nothing")?,
        Reached::Stream => rt.write_all(b" stream")?,
        Reached::Bin => rt.write_all(b" bin")?,
    }
    put_item(rt, stream)?;
    put_named(rt, bin)
}

fn put_head(rt: &impl Print, h: Head) -> io::Result<()> {
    let reference = h.reference;
    let subtype = h.subtype;
    let address = h.address;
    put_named(rt, reference)?;
    put_item(rt, subtype)?;
    put_address(rt, address)
}

fn put_activation(rt: &impl Print, a: Activation) -> io::Result<()> {
    match a {
        Activation::AtOnce => rt.write_all(b" at once"),
        Activation::Minute(m) => print!(rt; " minute {m}"),
    }
}

fn put_terms(rt: &impl Print, t: Terms) -> io::Result<()> {
    put_part(rt, t.numbers)?;
    print!(rt; " {} {}", t.number, t.count)?;
    put_item(rt, t.date)?;
    put_activation(rt, t.activation)?;
    put_part(rt, t.activated)
}

fn put_payment(rt: &impl Print, p: Payment) -> io::Result<()> {
    put_item(rt, p.side)?;
    put_item(rt, p.amount)?;
    put_item(rt, p.letters)?;
    put_item(rt, p.bank)
}

fn put_payments(rt: &impl Print, ps: [Payment; 10], n: usize) -> io::Result<()> {
    for &p in ps.iter().take(n) {
        put_payment(rt, p)?;
    }
    Ok(())
}

fn put_outcome(rt: &impl Print, o: Outcome) -> io::Result<()> {
    match o {
        Outcome::Settlement => rt.write_all(b"settlement")?,
        Outcome::Recall => rt.write_all(b"recall")?,
        Outcome::Refused(b) => {
            rt.write_all(b"refused")?;
            put_break(rt, b)?;
        }
    }
    Ok(())
}

fn put_reading(rt: &impl Print, r: Reading) -> io::Result<()> {
    let outcome = r.outcome;
    let head = r.head;
    let terms = r.terms;
    let payments = r.payments;
    let count = r.count;
    put_outcome(rt, outcome)?;
    put_head(rt, head)?;
    put_terms(rt, terms)?;
    print!(rt; " {}", r.n)?;
    put_payments(rt, payments, r.n)?;
    put_item(rt, count)?;
    rt.write_all(b"\n")
}

// The next text; whether there was one.
fn one_text(rt: &impl Print, from: &mut impl Read) -> io::Result<bool> {
    let mut header = [0u8; 6];
    if !cli_files::take_all(from, &mut header)? {
        return Ok(false);
    }
    let w = text_scan::digits(&header, 0, 5);
    let n = w.value as usize;
    let mut buf = [0u8; 65536];
    let Some(text) = buf.get_mut(..n) else {
        return Ok(false);
    };
    if !cli_files::take_all(from, text)? {
        return Ok(false);
    }
    put_reading(rt, request_read::whole::read_request(text))?;
    Ok(true)
}

fn main(rt: HostRuntime) -> io::Result<()> {
    for _ in 0..1000 {
        if !one_text(&rt, &mut rt.stdin())? {
            return Ok(());
        }
    }
    Ok(())
}
