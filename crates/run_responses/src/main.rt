// Reads texts from standard input, each after its length in five digits and a line feed, and writes
// on a line for each what the reader of responses finds in it. A response is written again, into a
// buffer of points with room for it and into one that is a byte too short.
#![tactic(auto)]

use chars::Refusal;
use codes::Code;
use response_read::{Parts, ReadResponse, Reply};
use response_write::{Answer, Outcome, Recall, Settlement};
use std::io;
use std::io::Read;
use text_fields::Break;
use text_values::Part;

// Where a response is written again.
const PLACE: usize = 5;

fn put_part(rt: &impl Print, p: Part) -> io::Result<()> {
    print!(rt; " {} {}", p.start, p.end)
}

fn put_code(rt: &impl Print, c: Code) -> io::Result<()> {
    print!(rt; " {} {}", c.high, c.low)
}

fn put_break(rt: &impl Print, b: Break) -> io::Result<()> {
    let how = if b.missing { "missing" } else { "wrong" };
    println!(rt; "refused {} {} {how}", b.refusal.number(), b.at)
}

fn put_parts(rt: &impl Print, p: Parts) -> io::Result<()> {
    let number = p.number;
    let subtype = p.subtype;
    let reference = p.reference;
    let stream = p.stream;
    let bin = p.bin;
    let status = p.status;
    let detail = p.detail;
    put_part(rt, number)?;
    put_part(rt, subtype)?;
    put_part(rt, reference)?;
    put_part(rt, stream)?;
    put_part(rt, bin)?;
    put_part(rt, status)?;
    put_part(rt, detail)?;
    rt.write_all(b"\n")
}

fn put_outcome(rt: &impl Print, o: Outcome) -> io::Result<()> {
    match o {
        Outcome::Settled(day, second) => print!(rt; " settled {day} {second}"),
        Outcome::Rejected(number) => print!(rt; " rejected {number}"),
    }
}

fn put_settlement(rt: &impl Print, r: Settlement) -> io::Result<()> {
    print!(rt; "settlement {}", r.number)?;
    put_code(rt, r.reference)?;
    print!(rt; " {}", r.stream)?;
    put_code(rt, r.bin)?;
    put_outcome(rt, r.outcome)
}

fn put_answer(rt: &impl Print, a: Answer) -> io::Result<()> {
    match a {
        Answer::Recalled => rt.write_all(b" recalled"),
        Answer::Kept(number) => print!(rt; " kept {number}"),
    }
}

fn put_recall(rt: &impl Print, r: Recall) -> io::Result<()> {
    print!(rt; "recall {}", r.number)?;
    put_code(rt, r.reference)?;
    put_answer(rt, r.answer)
}

// How the writing ended: nothing more for a text that was written, else the number.
fn put_written(rt: &impl Print, w: Result<usize, Refusal>) -> io::Result<()> {
    match w {
        Ok(_) => rt.write_all(b"\n"),
        Err(refusal) => println!(rt; " {}", refusal.number()),
    }
}

fn write_again(out: &mut [u8], r: Reply) -> Result<usize, Refusal> {
    match r {
        Reply::Settlement(s) => response_write::write_settlement(out, PLACE, s),
        Reply::Recall(a) => response_write::write_recall(out, PLACE, a),
        Reply::Refused(b) => Err(b.refusal),
    }
}

fn put_again(rt: &impl Print, out: &mut [u8], r: Reply) -> io::Result<()> {
    let w = write_again(out, r);
    rt.write_all(out)?;
    put_written(rt, w)
}

// Into a buffer with room, and into one that is a byte too short for the n bytes of the text.
fn put_twice(rt: &impl Print, r: Reply, n: usize) -> io::Result<()> {
    let mut wide = [46u8; 128];
    put_again(rt, &mut wide, r)?;
    let mut narrow = [46u8; 128];
    if n < 124 {
        let e = PLACE + n - 1;
        put_again(rt, &mut narrow[..e], r)?;
    }
    Ok(())
}

fn put_response(rt: &impl Print, r: ReadResponse, n: usize) -> io::Result<()> {
    let reply = r.reply;
    let parts = r.parts;
    match reply {
        Reply::Settlement(s) => {
            put_settlement(rt, s)?;
            put_parts(rt, parts)?;
            put_twice(rt, reply, n)?;
        }
        Reply::Recall(a) => {
            put_recall(rt, a)?;
            put_parts(rt, parts)?;
            put_twice(rt, reply, n)?;
        }
        Reply::Refused(b) => put_break(rt, b)?,
    }
    Ok(())
}

// The next text; whether there was one.
fn one_text(rt: &impl Print, from: &mut impl Read) -> io::Result<bool> {
    let mut header = [0u8; 6];
    if !cli_files::take_all(from, &mut header)? {
        return Ok(false);
    }
    let w = text_scan::digits(&header, 0, 5);
    let n = w.value as usize;
    let mut buf = [0u8; 65536];
    let Some(text) = buf.get_mut(..n) else {
        return Ok(false);
    };
    if !cli_files::take_all(from, text)? {
        return Ok(false);
    }
    put_response(rt, response_read::read_response(text), n)?;
    Ok(true)
}

fn main(rt: HostRuntime) -> io::Result<()> {
    for _ in 0..1000 {
        if !one_text(&rt, &mut rt.stdin())? {
            return Ok(());
        }
    }
    Ok(())
}
