// The orders of the table's calls.
ghost use Rattle.std.specs.Prelude.{◌≡◌};
ghost use Rattle.common.specs.Sizes.{max_rows};
ghost use Rattle.common.specs.Refusals.{answered};
ghost use Rattle.order.specs.Order.{bulk_fits_lem, cell_fits_lem};

use common::Refusal;
use common::sizes::MAX_ROWS;

// A cell at a row and a column of a table.
pub fn cell_fits(rows: usize, columns: usize, row: usize, column: usize) -> Result<(), Refusal>
    ensures { answered result ≡ cell_fits_lem rows columns row column }
{
    if row >= rows || column >= columns {
        return Err(Refusal::OutsideTable);
    }
    Ok(())
}

// Cells handed over in bulk. The product fits: there are at most 65,536 rows.
pub fn bulk_fits(rows: usize, columns: u32, kinds: usize, numbers: usize) -> Result<(), Refusal>
    ensures { answered result ≡ bulk_fits_lem max_rows rows columns kinds numbers }
{
    if rows > MAX_ROWS {
        return Err(Refusal::TooManyRows);
    }
    let cells = rows * columns as usize;
    if kinds != cells || numbers != cells {
        return Err(Refusal::CellCount);
    }
    Ok(())
}
