// The library for programs in C: each export calls a function of c_gateway, c_engine or c_version of the same name, and promises what that promises.
// include/purmagheli.h declares them, with the same constants, and says what each word is.
#![tactic(auto)]

ghost use Rattle.std.specs.Prelude.{◌≡◌};
ghost use Rattle.c_gateway.specs.Requests.{request_number, request_row};
ghost use Rattle.c_gateway.specs.Responses.{response_number, response_row};
ghost use Rattle.c_gateway.specs.Books.{book_number};
ghost use Rattle.c_gateway.specs.Breaks.{request_report, response_report, explained_number, explained_row};
ghost use Rattle.c_gateway.specs.Writers.{order_in, order_written, order_left, response_written, response_left, is_ready, number_for, left_for, told_for};
ghost use Rattle.c_gateway.specs.Faults.{fault_number, fault_row};
ghost use Rattle.c_engine.specs.Lending.{engine_words, lent_words, asks, CalledWords, ClearedWords};
ghost use Rattle.c_version.specs.Version.{version};

// Reads a request: 0 and its fields in the row, or why it is refused, and where. A row that is too
// short is not touched, whatever the text.
#[unsafe(no_mangle)]
pub extern "C" fn purmagheli_read_request(text: &[u8], row: &mut [u64]) -> u64
    ensures { (result ≡ request_number text.now row.old) × (row.new ≡ request_row text.now row.old) }
{
    c_gateway::purmagheli_read_request(text, row)
}

// Reads a response: 0 and its fields in the row, or why it is refused, and where. A row that is too
// short is not touched, whatever the text.
#[unsafe(no_mangle)]
pub extern "C" fn purmagheli_read_response(text: &[u8], row: &mut [u64]) -> u64
    ensures { (result ≡ response_number text.now row.old) × (row.new ≡ response_row text.now row.old) }
{
    c_gateway::purmagheli_read_response(text, row)
}

// Checks a book: 0, or the number of the first rule that it breaks.
#[unsafe(no_mangle)]
pub extern "C" fn purmagheli_check_book(book: &[u8]) -> u64
    ensures { result ≡ book_number book.now }
{
    c_gateway::purmagheli_check_book(book)
}

// Explains the break of a request: the reader's number, and where and why it is refused in the row, zeros for
// one that is accepted. A row that is too short is not touched, whatever the text.
#[unsafe(no_mangle)]
pub extern "C" fn purmagheli_explain_request(text: &[u8], row: &mut [u64]) -> u64
    ensures { (result ≡ explained_number (request_report text.now) row.old) × (row.new ≡ explained_row (request_report text.now) row.old) }
{
    c_gateway::breaks::purmagheli_explain_request(text, row)
}

// The same of a response.
#[unsafe(no_mangle)]
pub extern "C" fn purmagheli_explain_response(text: &[u8], row: &mut [u64]) -> u64
    ensures { (result ≡ explained_number (response_report text.now) row.old) × (row.new ≡ explained_row (response_report text.now) row.old) }
{
    c_gateway::breaks::purmagheli_explain_response(text, row)
}

// Writes the request of a row: 0, the text at the buffer's beginning and its length, or the number that its reader would give, then 07 where it does not
// fit, and nothing is written. A row, or what is to be told, of too few words is 07 before all else.
#[unsafe(no_mangle)]
pub extern "C" fn purmagheli_write_request(row: &[u64], out: &mut [u8], told: &mut [u64]) -> u64
    ensures { (result ≡ number_for (is_ready 192 row.now told.old) (order_written (order_in row.now) out.old))
        × (out.new ≡ left_for (is_ready 192 row.now told.old) (order_left (order_in row.now) out.old) out.old)
        × (told.new ≡ told_for (is_ready 192 row.now told.old) (order_written (order_in row.now) out.old) told.old) }
{
    c_gateway::writers::purmagheli_write_request(row, out, told)
}

// Writes the response of a row likewise: 88 for a sub type that is neither 132 nor 134, 87 for a status or values that no text can hold, then 07.
#[unsafe(no_mangle)]
pub extern "C" fn purmagheli_write_response(row: &[u64], out: &mut [u8], told: &mut [u64]) -> u64
    ensures { (result ≡ number_for (is_ready 28 row.now told.old) (response_written row.now out.old))
        × (out.new ≡ left_for (is_ready 28 row.now told.old) (response_left row.now out.old) out.old)
        × (told.new ≡ told_for (is_ready 28 row.now told.old) (response_written row.now out.old) told.old) }
{
    c_gateway::writers::purmagheli_write_response(row, out, told)
}

// Finds where a book breaks: the number of its check, and block, entry and test of the first rule that
// it breaks in the row, zeros for a sound book. A row that is too short is not touched, whatever the book.
#[unsafe(no_mangle)]
pub extern "C" fn purmagheli_find_book_fault(book: &[u8], row: &mut [u64]) -> u64
    ensures { (result ≡ fault_number book.now row.old) × (row.new ≡ fault_row book.now row.old) }
{
    c_gateway::books::purmagheli_find_book_fault(book, row)
}

// A call of the engine, clearing apart: its answer's number. A report of fewer than two words is 07,
// a desk or banks of another length or a phase that is none 06, with nothing changed.
#[unsafe(no_mangle)]
pub extern "C" fn purmagheli_call_rows(
    quick: u64,
    clock: u64,
    action: u64,
    first: u64,
    second: u64,
    third: u64,
    fourth: u64,
    input: &[u8],
    desk: &mut [u64],
    banks: &mut [u64],
    batches: &mut [u64],
    references: &mut [u64],
    bins: &mut [u64],
    out: &mut [u8],
    tries: &mut [u64],
    report: &mut [u64],
) -> u64
    ensures { CalledWords
        (lent_words desk.old banks.old batches.old references.old bins.old
        out.old tries.old report.old)
        (asks quick clock action first second third fourth input.now)
        (record {
          number = result;
          words =
              lent_words desk.new banks.new batches.new references.new bins.new
              out.new tries.new report.new;
        }) }
{
    c_engine::purmagheli_call_rows(
        quick, clock, action, first, second, third, fourth, input, desk, banks, batches,
        references, bins, out, tries, report,
    )
}

// "A fresh start": all zero. Rows of another length are 06, with nothing changed.
#[unsafe(no_mangle)]
pub extern "C" fn purmagheli_clear_rows(
    desk: &mut [u64],
    banks: &mut [u64],
    batches: &mut [u64],
    references: &mut [u64],
    bins: &mut [u64],
) -> u64
    ensures { ClearedWords
        (engine_words desk.old banks.old batches.old references.old bins.old)
        (record {
          number = result;
          words =
              engine_words desk.new banks.new batches.new references.new bins.new;
        }) }
{
    c_engine::purmagheli_clear_rows(desk, banks, batches, references, bins)
}

// The version of the archive: a program compares it with PURMAGHELI_VERSION of the header that it was compiled with.
#[unsafe(no_mangle)]
pub extern "C" fn purmagheli_version() -> u64
    ensures { result ≡ version }
{
    c_version::purmagheli_version()
}
