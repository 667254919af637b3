// The layout of a table.
ghost use Rattle.std.specs.Prelude.{◌≡◌, ◌<◌, ◌≤◌};
ghost use Rattle.common.specs.Refusals.{answered};
ghost use Rattle.cell.specs.Forms.{form_for};
ghost use Rattle.widths.specs.Widths.{type_at};
ghost use Rattle.table.specs.Layout.{types_of, bitfields_outcome, columns_outcome};

use cell::CellForm;
use column::Column;
use common::Refusal;
use common::sizes::MAX_COLUMNS;

// A layout, handed over whole: its first `count` columns are in use.
#[derive(Clone, Copy)]
pub struct Table {
    pub columns: [Column; 64],
    pub count: usize,
    pub long_string_refs: bool,
}

impl Table {
    // The first `count` of the columns.
    pub fn new(
        columns: [Column; 64],
        count: usize,
        long_string_refs: bool,
    ) -> Result<Table, Refusal>
        ensures { answered result ≡ columns_outcome columns count long_string_refs }
    {
        widths::widths_of(columns, count, long_string_refs)?;
        Ok(Table {
            columns,
            count,
            long_string_refs,
        })
    }

    // A column for each bitfield.
    pub fn from_bitfields(bits: &[i32], long_string_refs: bool) -> Result<Table, Refusal>
        ensures { answered result ≡ bitfields_outcome bits.now long_string_refs }
    {
        let count = bits.len();
        if count > MAX_COLUMNS {
            return Err(Refusal::TooManyColumns);
        }
        let mut columns = [Column::build().int16(); 64];
        for (column, field) in bits.iter().enumerate() {
            let Ok(made) = Column::build().with_bitfield(*field) else {
                return Err(Refusal::IntegerSize { column });
            };
            columns[column] = made;
        }
        Ok(Table {
            columns,
            count,
            long_string_refs,
        })
    }

    // The form of a column's cells.
    pub(crate) fn form(&self, column: usize) -> CellForm
        requires { (column < self.now.count) × (self.now.count ≤ 64) }
        ensures { result ≡ form_for (type_at (types_of self.now) column) self.now.long_string_refs }
    {
        self.columns[column]
            .coltype
            .cell_form(self.long_string_refs)
    }
}
