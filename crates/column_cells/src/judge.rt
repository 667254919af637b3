// One column's cells, judged row by row.
ghost use Rattle.std.specs.Prelude.{◌≡◌, length};
ghost use Rattle.common.specs.Lists.{from};
ghost use Rattle.common.specs.Answers.{refusal_of, each};
ghost use Rattle.common.specs.Refusals.{answered};
ghost use Rattle.column_cells.specs.Strides.{cell_number};
ghost use Rattle.column_cells.specs.Columns.{judge_column_answer};
ghost use Rattle.column_cells.specs.inner.Handed.{Handed};

use crate::stride::Stride;
use cell::fixed::{Binary, Fixed, Int16, Int32, LongRef, ShortRef};
use cell::{Cell, CellForm};
use common::Refusal;

// The first bad cell of a column. The form is settled once for all of them.
pub fn judge_column(
    form: CellForm,
    kinds: &[u8],
    numbers: &[i32],
    run: Stride,
) -> Result<(), Refusal>
    ensures { answered result ≡ judge_column_answer form kinds.now numbers.now run }
{
    run.fits()?;
    let cells = run.rows * run.step;
    if kinds.len() != cells || numbers.len() != cells {
        return Err(Refusal::CellCount);
    }
    match form {
        CellForm::Int16 => judge_cells::<Int16>(kinds, numbers, run),
        CellForm::Int32 => judge_cells::<Int32>(kinds, numbers, run),
        CellForm::ShortRef => judge_cells::<ShortRef>(kinds, numbers, run),
        CellForm::LongRef => judge_cells::<LongRef>(kinds, numbers, run),
        CellForm::Binary => judge_cells::<Binary>(kinds, numbers, run),
    }
}

fn judge_cells<F: Fixed>(kinds: &[u8], numbers: &[i32], run: Stride) -> Result<(), Refusal>
    requires { Handed (length kinds.now) (length numbers.now) run }
    ensures { answered result ≡ refusal_of (each (cell_number F.FORM kinds.now numbers.now run) (from 0 run.rows)) }
{
    for row in 0..run.rows {
        let at = row * run.step + run.column;
        F::FORM.stored(Cell::new(kinds[at], numbers[at]), row, run.column)?;
    }
    Ok(())
}
