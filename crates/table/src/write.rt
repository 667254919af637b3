// Cells written in bulk: all are judged first, column by column; then each column is written to its own stretch.
ghost use Rattle.std.specs.Prelude.{◌≡◌, ◌*◌, ◌≤◌, length};
ghost use Rattle.common.specs.Lists.{◌over◌};
ghost use Rattle.common.specs.Answers.{gives, refusal_of};
ghost use Rattle.common.specs.Refusals.{answered};
ghost use Rattle.widths.specs.Widths.{row_size_lem};
ghost use Rattle.table.specs.Layout.{types_of};
ghost use Rattle.table.specs.Writing.{column_bytes, table_bytes, write_rows_outcome};
ghost use Rattle.table.specs.inner.Columns.{plain};

use crate::column_write;
use crate::layout::Table;
use column_cells::Stride;
use common::Refusal;
use order::bulk_fits;

impl Table {
    // Cells are handed over row by row.
    pub fn write_rows(
        self,
        rows: usize,
        kinds: &[u8],
        numbers: &[i32],
        out: &mut [u8],
    ) -> Result<usize, Refusal>
        ensures { (answered result, out.new) ≡ write_rows_outcome self rows (record { kinds = kinds.entry.now; numbers = numbers.now }) out.old }
    {
        let row_size = widths::widths_of(self.columns, self.count, self.long_string_refs)?.row_size;
        bulk_fits(rows, self.count as u32, kinds.len(), numbers.len())?;
        let handed = Handed {
            table: &self,
            rows,
            kinds,
            numbers,
        };
        handed.judge()?;
        let bytes = rows * row_size;
        if out.len() < bytes {
            return Err(Refusal::OutputRoom);
        }
        handed.write(out);
        Ok(bytes)
    }
}

// The cells of a table handed over for writing: as many as its rows and columns say.
#[derive(Clone, Copy)]
struct Handed<'a> {
    table: &'a Table,
    rows: usize,
    kinds: &'a [u8],
    numbers: &'a [i32],
    ghost whole: { length table.now.columns ≡ 64 },
    ghost narrow: { table.now.count ≤ 64 },
    ghost few: { rows ≤ 65536 },
    ghost kinds_are: { length kinds.now ≡ rows * table.now.count },
    ghost numbers_are: { length numbers.now ≡ rows * table.now.count },
}

impl Handed<'_> {
    // Judges the columns in order.
    fn judge(&self) -> Result<(), Refusal>
        ensures { answered result ≡ refusal_of (table_bytes (types_of self.now.table.now) self.now.table.now.long_string_refs self.now.rows (record { kinds = self.now.kinds.now; numbers = self.now.numbers.now })) }
    {
        for column in 0..self.table.count {
            column_cells::judge_column(
                self.table.form(column),
                self.kinds,
                self.numbers,
                self.run(column),
            )?;
        }
        Ok(())
    }

    // Writes the columns one after the other, each to its own stretch.
    fn write(&self, out: &mut [u8])
        requires { (self.now.rows * row_size_lem (types_of self.now.table.now) self.now.table.now.long_string_refs ≤ length out.old) × (refusal_of (table_bytes (types_of self.now.table.now) self.now.table.now.long_string_refs self.now.rows (record { kinds = self.now.kinds.now; numbers = self.now.numbers.now })) ≡ gives tt) }
        ensures { out.new ≡ plain (column_bytes (types_of self.now.table.now) self.now.table.now.long_string_refs self.now.rows (record { kinds = self.now.kinds.now; numbers = self.now.numbers.now })) 0 self.now.table.now.count over out.old }
    {
        let mut at = 0;
        for column in 0..self.table.count {
            let form = self.table.form(column);
            column_write::write_column(
                form,
                self.kinds,
                self.numbers,
                self.run(column),
                &mut out[at..],
            );
            at += self.rows * form.width();
        }
    }

    // Where the cells of a column lie.
    fn run(&self, column: usize) -> Stride
        ensures { result ≡ record { column = column; step = self.now.table.now.count; rows = self.now.rows } }
    {
        Stride {
            column,
            step: self.table.count,
            rows: self.rows,
        }
    }
}
