// Cells read by place, and in bulk: column after column, each to every `step`-th place of the outputs.
ghost use Rattle.std.specs.Prelude.{◌≡◌, ◌+◌, ◌*◌, ◌<◌, ◌≤◌, IfOk, length};
ghost use Rattle.common.specs.Lists.{◌over◌};
ghost use Rattle.common.specs.Answers.{outcome};
ghost use Rattle.common.specs.Refusals.{answered, answer_as};
ghost use Rattle.cell.specs.Kinds.{cell_as};
ghost use Rattle.table.specs.Layout.{types_of};
ghost use Rattle.table.specs.Rows.{cell_at, row_by_row};
ghost use Rattle.table.specs.Reading.{cells_read, num_rows_answer, read_cell_answer, read_rows_outcome, cell_read_as};
ghost use Rattle.table.specs.inner.Layout.{Lies};
ghost use Rattle.table.specs.inner.Columns.{rows_from};

use crate::layout::Table;
use cell::ValueRef;
use column_cells::Stride;
use common::Refusal;
use order::cell_fits;
use widths::Places;

// How many rows are read together: their cells fit into the L1 cache of a processor.
const NEAR: usize = 1024;

impl Table {
    // The complete rows of a stream.
    pub fn num_rows(self, stream: &[u8]) -> Result<usize, Refusal>
        ensures { answered result ≡ num_rows_answer self stream.now }
    {
        Ok(Found::new(&self, stream)?.places.rows)
    }

    pub fn read_cell(self, stream: &[u8], row: usize, column: usize) -> Result<ValueRef, Refusal>
        ensures { cell_read_as result ≡ read_cell_answer self stream.now row column }
    {
        let found = Found::new(&self, stream)?;
        cell_fits(found.places.rows, self.count, row, column)?;
        Ok(found.cell(row, column))
    }

    // The cells row by row, into two lent slices.
    pub fn read_rows(
        self,
        stream: &[u8],
        kinds: &mut [u8],
        numbers: &mut [i32],
    ) -> Result<usize, Refusal>
        ensures { (answered result, (kinds.new, numbers.new)) ≡ read_rows_outcome self stream.now kinds.old numbers.old }
    {
        Found::new(&self, stream)?.read(kinds, numbers)
    }
}

// A stream whose rows were found, and the places of its table's columns in it.
#[derive(Clone, Copy)]
struct Found<'a> {
    table: &'a Table,
    places: Places,
    stream: &'a [u8],
    ghost lies: { Lies table.now places (length stream.now) },
}

// Some rows of a table, from `first` on.
#[derive(Clone, Copy)]
struct Band {
    first: usize,
    rows: usize,
}

impl<'a> Found<'a> {
    fn new(table: &'a Table, stream: &'a [u8]) -> Result<Found<'a>, Refusal>
        ensures rows { answer_as (λ f. f.places.rows) result ≡ num_rows_answer table.entry.now stream.entry.now }
        ensures lent { IfOk result (λ f. (f.table ≡ table.entry) × (f.stream ≡ stream.entry)) }
    {
        let places = widths::places_of(
            table.columns,
            table.count,
            table.long_string_refs,
            stream.len(),
        )?;
        Ok(Found {
            table,
            places,
            stream,
        })
    }

    // The cell at a row and a column of the table.
    fn cell(&self, row: usize, column: usize) -> ValueRef
        requires { (row < self.now.places.rows) × (column < self.now.table.now.count) }
        ensures { cell_as result ≡ cell_at (types_of self.now.table.now) self.now.table.now.long_string_refs self.now.places.rows self.now.stream.now row column }
    {
        let start = self.places.starts[column];
        let width = self.places.widths[column];
        self.table
            .form(column)
            .read_value(self.stream, start + row * width)
    }

    fn read(&self, kinds: &mut [u8], numbers: &mut [i32]) -> Result<usize, Refusal>
        ensures { (answered result, (kinds.new, numbers.new)) ≡ outcome (kinds.old, numbers.old) (cells_read self.now.table.now self.now.stream.now kinds.old numbers.old self.now.places.rows) }
    {
        let cells = self.places.rows * self.table.count;
        if kinds.len() < cells || numbers.len() < cells {
            return Err(Refusal::OutputRoom);
        }
        self.read_bands(kinds, numbers);
        Ok(cells)
    }

    // Reads the rows band after band: the cells of a band stay near while its columns are read one after the other.
    fn read_bands(&self, kinds: &mut [u8], numbers: &mut [i32])
        requires { (self.now.places.rows * self.now.table.now.count ≤ length kinds.old) × (self.now.places.rows * self.now.table.now.count ≤ length numbers.old) }
        ensures kinds { kinds.new ≡ row_by_row (λ i c. (cell_at (types_of self.now.table.now) self.now.table.now.long_string_refs self.now.places.rows self.now.stream.now i c).0) self.now.places.rows self.now.table.now.count over kinds.old }
        ensures numbers { numbers.new ≡ row_by_row (λ i c. (cell_at (types_of self.now.table.now) self.now.table.now.long_string_refs self.now.places.rows self.now.stream.now i c).1) self.now.places.rows self.now.table.now.count over numbers.old }
    {
        let rows = self.places.rows;
        let count = self.table.count;
        for first in (0..rows).step_by(NEAR) {
            let band = Band {
                first,
                rows: (rows - first).min(NEAR),
            };
            let at = first * count;
            let end = at + band.rows * count;
            self.read_columns(band, &mut kinds[at..end], &mut numbers[at..end]);
        }
    }

    // Reads the columns of a band one after the other.
    fn read_columns(&self, band: Band, kinds: &mut [u8], numbers: &mut [i32])
        requires { (band.first + band.rows ≤ self.now.places.rows) × (length kinds.old ≡ band.rows * self.now.table.now.count) × (length numbers.old ≡ band.rows * self.now.table.now.count) }
        ensures { (kinds.new ≡ rows_from (λ i c. (cell_at (types_of self.now.table.now) self.now.table.now.long_string_refs self.now.places.rows self.now.stream.now i c).0) self.now.table.now.count band.first band.rows) × (numbers.new ≡ rows_from (λ i c. (cell_at (types_of self.now.table.now) self.now.table.now.long_string_refs self.now.places.rows self.now.stream.now i c).1) self.now.table.now.count band.first band.rows) }
    {
        let step = self.table.count;
        for column in 0..step {
            let start = self.places.starts[column] + band.first * self.places.widths[column];
            let run = Stride {
                column,
                step,
                rows: band.rows,
            };
            let _ = column_cells::read_column(
                self.table.form(column),
                self.stream,
                start,
                kinds,
                numbers,
                run,
            );
        }
    }
}
