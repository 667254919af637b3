// Tables: a layout by its columns or their bitfields, and the calls on it. A layout handed over need not be one that was made: each
// call judges it.
ghost use Rattle.std.specs.Prelude.{◌≡◌};
ghost use Rattle.table.specs.Layout.{bitfields_outcome, columns_outcome};
ghost use Rattle.table.specs.Reading.{num_rows_answer, read_cell_answer, read_rows_outcome};
ghost use Rattle.table.specs.Writing.{write_rows_outcome};
ghost use Rattle.rows.specs.Next.{next_outcome};
ghost use Rattle.c_types.specs.Answers.{count_in, answered_as};
ghost use Rattle.c_types.specs.Tables.{table_in_lem, on_table, laid_in, new_in, cell_in, step_in};

use c_types::answers::{CellAnswer, Count, StepAnswer, TableAnswer, TableParts, told};
use c_types::tables::{handed_back, laid, on_table, stepped};
use table::Table;

// The layout of the columns handed over, judged.
#[unsafe(no_mangle)]
pub extern "C" fn strandroost_table_new(table: TableParts) -> TableAnswer
    ensures { result ≡ new_in table (columns_outcome (table_in_lem table).columns (table_in_lem table).count (table_in_lem table).long_string_refs) }
{
    let parts = Table::from(table);
    let made = Table::new(parts.columns, parts.count, parts.long_string_refs);
    handed_back(made, table)
}

#[unsafe(no_mangle)]
pub extern "C" fn strandroost_table_from_bitfields(
    bits: &[i32],
    long_string_refs: bool,
) -> TableAnswer
    ensures { result ≡ laid_in long_string_refs (bitfields_outcome bits.now long_string_refs) }
{
    let made = Table::from_bitfields(bits, long_string_refs);
    laid(told(made.map(TableParts::from)), long_string_refs)
}

#[unsafe(no_mangle)]
pub extern "C" fn strandroost_num_rows(table: TableParts, stream: &[u8]) -> Count
    ensures { result ≡ count_in (on_table table (num_rows_answer (table_in_lem table) stream.now)) }
{
    let made = Table::from(table);
    Count::from(on_table(table, made.num_rows(stream)))
}

#[unsafe(no_mangle)]
pub extern "C" fn strandroost_read_cell(
    table: TableParts,
    stream: &[u8],
    row: usize,
    column: usize,
) -> CellAnswer
    ensures { result ≡ cell_in (on_table table (read_cell_answer (table_in_lem table) stream.now row column)) }
{
    let made = Table::from(table);
    CellAnswer::from(on_table(table, made.read_cell(stream, row, column)))
}

#[unsafe(no_mangle)]
pub extern "C" fn strandroost_read_rows(
    table: TableParts,
    stream: &[u8],
    kinds: &mut [u8],
    numbers: &mut [i32],
) -> Count
    ensures { (result, (kinds.new, numbers.new))
        ≡ answered_as (λ a. count_in (on_table table a)) (read_rows_outcome (table_in_lem table) stream.now kinds.old numbers.old) }
{
    let made = Table::from(table);
    Count::from(on_table(table, made.read_rows(stream, kinds, numbers)))
}

#[unsafe(no_mangle)]
pub extern "C" fn strandroost_write_rows(
    table: TableParts,
    rows: usize,
    kinds: &[u8],
    numbers: &[i32],
    out: &mut [u8],
) -> Count
    ensures { (result, out.new)
        ≡ answered_as (λ a. count_in (on_table table a)) (write_rows_outcome (table_in_lem table) rows (record { kinds = kinds.entry.now; numbers = numbers.now }) out.old) }
{
    let made = Table::from(table);
    Count::from(on_table(table, made.write_rows(rows, kinds, numbers, out)))
}

// A step of the row reader from the place `at`: state in, state out.
#[unsafe(no_mangle)]
pub extern "C" fn strandroost_rows_next(table: TableParts, stream: &[u8], at: usize) -> StepAnswer
    ensures { result ≡ step_in (answered_as (on_table table) (next_outcome (table_in_lem table) stream.now at)) }
{
    let made = Table::from(table);
    let step = rows::next_at(stream, at, made);
    stepped(on_table(table, step.cell), step.at)
}
