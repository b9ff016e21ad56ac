// A number as six columns of a lent buffer, and the report in its first 31 bytes. What is written is what the reader reads:
// `columns_of` and `text_of` are the reader's definitions. Each function answers its result's length, or 0 where the buffer is too short
// for it, and then writes nothing. Every byte of the buffer at exit is determined; its length stays.
#![tactic(auto)]

ghost use Rattle.std.specs.Prelude.{◌≡◌, ◌+◌, ◌<◌, ◌≤◌, length};
ghost use Rattle.std.proofs.lemmas.List.Edits.{sets};
ghost use Rattle.columns.specs.Columns.{column_of, columns_of};
ghost use Rattle.writer.specs.Put.{put, put_length};
ghost use Rattle.writer.specs.Report.{report_bytes};

use verdicts::Report;

// Five fields and byte 10.
pub const REPORT_BYTES: usize = 31;

const BLANK: u8 = 32;

const DIGIT_0: u8 = 48;

const LINE_END: u8 = 10;

// A number in the six columns from `at` on.
pub fn put_field(buffer: &mut [u8], at: usize, n: u16) -> usize
    ensures value { result ≡ put_length buffer.old at (columns_of n) }
    ensures buffer_after { buffer.new ≡ put buffer.old at (columns_of n) }
{
    if buffer.len() < columns::COLUMNS {
        return 0;
    }
    if buffer.len() - columns::COLUMNS < at {
        return 0;
    }
    put_columns(buffer, at, n);
    columns::COLUMNS
}

// The report in the first 31 bytes; later bytes keep their content.
pub fn put_report(buffer: &mut [u8], report: Report) -> usize
    ensures value { result ≡ put_length buffer.old 0 (report_bytes report) }
    ensures buffer_after { buffer.new ≡ put buffer.old 0 (report_bytes report) }
{
    if buffer.len() < REPORT_BYTES {
        return 0;
    }
    put_numbers(buffer, report);
    REPORT_BYTES
}

// A number's columns, where there is room for them.
fn put_columns(buffer: &mut [u8], at: usize, n: u16)
    requires { at + 6 ≤ length buffer.old }
    ensures { buffer.new ≡ sets buffer.old at (columns_of n) }
{
    buffer[at] = BLANK;
    buffer[at + 1] = column(n, 10000);
    buffer[at + 2] = column(n, 1000);
    buffer[at + 3] = column(n, 100);
    buffer[at + 4] = column(n, 10);
    buffer[at + 5] = DIGIT_0 + (n % 10) as u8;
}

// The report's five fields and byte 10, where there is room for them.
fn put_numbers(buffer: &mut [u8], report: Report)
    requires { 31 ≤ length buffer.old }
    ensures { buffer.new ≡ sets buffer.old 0 (report_bytes report) }
{
    put_columns(buffer, 0, report.verdict);
    put_columns(buffer, 6, report.number);
    put_columns(buffer, 12, report.state);
    put_columns(buffer, 18, report.row);
    put_columns(buffer, 24, report.sum);
    buffer[30] = LINE_END;
}

// The byte in the column of a weight: the digit, or a blank before the first digit.
fn column(n: u16, weight: u16) -> u8
    requires { 0 < weight }
    ensures { result ≡ column_of n weight }
{
    if n < weight {
        BLANK
    } else {
        DIGIT_0 + (n / weight % 10) as u8
    }
}
