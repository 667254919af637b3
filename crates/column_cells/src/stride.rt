// Where the cells of one column lie among those of all, which run row by row.
ghost use Rattle.std.specs.Prelude.{◌≡◌};
ghost use Rattle.common.specs.Refusals.{answered};
ghost use Rattle.column_cells.specs.Strides.{stride_fits};

use common::Refusal;
use common::sizes::{MAX_COLUMNS, MAX_ROWS};

// `rows` cells, the first at `column`, each `step` after the one before.
#[derive(Clone, Copy, Debug, PartialEq, Eq)]
pub struct Stride {
    pub column: usize,
    pub step: usize,
    pub rows: usize,
}

impl Stride {
    // At most 64 columns and 65,536 rows, and the column one of them.
    pub(crate) fn fits(self) -> Result<(), Refusal>
        ensures { answered result ≡ stride_fits self }
    {
        if self.step > MAX_COLUMNS {
            return Err(Refusal::TooManyColumns);
        }
        if self.rows > MAX_ROWS {
            return Err(Refusal::TooManyRows);
        }
        if self.column >= self.step {
            return Err(Refusal::OutsideTable);
        }
        Ok(())
    }
}
