// All that is lent, in one row of 20,608 words, for programs that run the table rules.
//
//     0 to 5           the desk: phase (0 fresh, 1 open, 2 closed), date, clock, texts, banks, streams in use
//     6 to 21          its 16 words of streams
//     24 to 31         how many words of each table are lent: codes, flags, balances, sub-limits, batches, references, BINs, sheet
//     32, 128, 224, 320, 512, 11776, 17984, 19584   where these tables begin
#![tactic(auto)]

ghost use Rattle.std.specs.Prelude.{◌≡◌, ◌+◌, ◌≤◌, ◌<◌, length, take, drop};
ghost use Rattle.chars.specs.Words.{Says};
ghost use Rattle.tables.specs.Lent.{Right};
ghost use Rattle.tables_as_row.specs.RowWords.{row_words, phase_by, desk_in, lent_of, tables_in, Judged};

use model::Phase;
use tables::Desk;

const WORDS: usize = 20_608;

// How many words of a table are lent, of those that it has room for.
fn lent(words: &[u64], table: usize, room: usize) -> usize
    requires { (length words.now ≡ row_words) × (table < 8) }
    ensures value { result ≡ lent_of words.now table room }
    ensures small { result ≤ room }
{
    let n = words[24 + table] as usize;
    n.min(room)
}

fn phase(x: u64) -> Phase
    ensures { result ≡ phase_by x }
{
    match x {
        0 => Phase::Fresh,
        1 => Phase::Open,
        _ => Phase::Closed,
    }
}

fn streams(words: &[u64]) -> [u64; 16]
    requires { length words.now ≡ row_words }
    ensures { result ≡ take 16 (drop 6 words.now) }
{
    let mut row = [0u64; 16];
    row.copy_from_slice(&words[6..22]);
    row
}

fn desk(words: &[u64]) -> Desk
    requires { length words.now ≡ row_words }
    ensures { result ≡ desk_in words.now }
{
    let row = streams(words);
    let at = phase(words[0]);
    Desk {
        phase: at,
        date: words[1],
        clock: words[2],
        texts: words[3],
        banks: words[4] as usize,
        streams: row,
        n: words[5] as usize,
    }
}

pub fn right(words: &[u64]) -> bool
    requires { length words.now ≡ row_words }
    ensures { Says (Right (desk_in words.now) (tables_in words.now)) result }
{
    let codes = 32 + lent(words, 0, 65);
    let flags = 128 + lent(words, 1, 65);
    let balances = 224 + lent(words, 2, 65);
    let sublimits = 320 + lent(words, 3, 65);
    let batches = 512 + lent(words, 4, 11_169);
    let references = 11_776 + lent(words, 5, 6_145);
    let bins = 17_984 + lent(words, 6, 1_537);
    let sheet = 19_584 + lent(words, 7, 65);
    let d = desk(words);
    tables_sheet::tables_right(
        d,
        &words[32..codes],
        &words[128..flags],
        &words[224..balances],
        &words[320..sublimits],
        &words[512..batches],
        &words[11_776..references],
        &words[17_984..bins],
        &words[19_584..sheet],
    )
}

// 0, or 6 where the row is of another length or its tables break the rules.
pub fn purmagheli_row_right(words: &[u64]) -> u64
    ensures { Judged words.now result }
{
    if words.len() == WORDS && right(words) {
        0
    } else {
        6
    }
}
