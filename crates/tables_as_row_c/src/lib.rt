// The test of a row of words for programs in C, for the benchmark.
#![tactic(auto)]

ghost use Rattle.tables_as_row.specs.RowWords.{Judged};

// 0, or 6 where the row is of another length or its tables break the rules.
#[unsafe(no_mangle)]
pub extern "C" fn purmagheli_row_right(words: &[u64]) -> u64
    ensures { Judged words.now result }
{
    tables_as_row::purmagheli_row_right(words)
}
