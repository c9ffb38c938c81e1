// Runs of the table rules. Standard input has lines: an index and a value set one word of the row of all that is lent (crate `tables_as_row`); any other
// line names the tables as they are now, and is written again with 0, or with 06 where they break the rules.
#![tactic(auto)]

ghost use Rattle.std.specs.Prelude.{◌≡◌, length};
ghost use Rattle.tables_as_row.specs.RowWords.{row_words};

use cli_files::numbers;
use std::io;
use std::io::{Print, Stdout};

const WORDS: usize = 20_608;

fn index(x: u64) -> usize {
    x as usize
}

// An index and a value.
fn set_word(line: &[u8], words: &mut [u64]) {
    let n = numbers::last(line);
    if let Some(word) = words.get_mut(index(n.d)) {
        *word = n.e;
    }
}

fn judge(rt: &impl Print, name: &[u8], words: &[u64]) -> io::Result<()>
    requires { length words.now ≡ row_words }
{
    rt.write_all(name)?;
    if tables_as_row::right(words) {
        rt.write_all(b" 0\n")
    } else {
        rt.write_all(b" 06\n")
    }
}

fn read_line(rt: &impl Print, line: &[u8], words: &mut [u64]) -> io::Result<()>
    requires { length words.old ≡ row_words }
{
    if line.len() == 0 {
        return Ok(());
    }
    if chars::is_digit(line[0]) {
        set_word(line, words);
        return Ok(());
    }
    judge(rt, line, words)
}

// The check refuses the iterator of `split` in a function over any writer, so this one names standard output.
fn run(out: &Stdout, text: &[u8]) -> io::Result<()> {
    let mut words = [0u64; WORDS];
    for line in text.split(|&byte| byte == b'\n') {
        read_line(out, line, &mut words)?;
    }
    Ok(())
}

fn main(rt: HostRuntime) -> io::Result<()> {
    let mut text = [0u8; 65536];
    let length = cli_files::read_full(&mut rt.stdin(), &mut text);
    run(&rt.stdout(), &text[..length])
}
