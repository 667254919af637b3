// One column's cells, read: each goes to its place among those of all.
ghost use Rattle.std.specs.Prelude.{◌≡◌, length};
ghost use Rattle.common.specs.Refusals.{answered};
ghost use Rattle.column_cells.specs.Strides.{kinds_read, numbers_read};
ghost use Rattle.column_cells.specs.Columns.{read_fits_lem, read_column_outcome};
ghost use Rattle.column_cells.specs.inner.Handed.{Held};

use crate::stride::Stride;
use cell::CellForm;
use cell::fixed::{Binary, Fixed, Int16, Int32, LongRef, ShortRef};
use common::Refusal;
use common::sizes::MAX_BYTES;

// The cells whose bytes begin at `start`. The form is settled once for all of them.
pub fn read_column(
    form: CellForm,
    stream: &[u8],
    start: usize,
    kinds: &mut [u8],
    numbers: &mut [i32],
    run: Stride,
) -> Result<(), Refusal>
    ensures { (answered result, (kinds.new, numbers.new)) ≡ read_column_outcome form stream.now start run kinds.old numbers.old }
{
    read_fits(form, stream.len(), start, kinds.len(), numbers.len(), run)?;
    match form {
        CellForm::Int16 => read_cells::<Int16>(stream, start, kinds, numbers, run),
        CellForm::Int32 => read_cells::<Int32>(stream, start, kinds, numbers, run),
        CellForm::ShortRef => read_cells::<ShortRef>(stream, start, kinds, numbers, run),
        CellForm::LongRef => read_cells::<LongRef>(stream, start, kinds, numbers, run),
        CellForm::Binary => read_cells::<Binary>(stream, start, kinds, numbers, run),
    }
    Ok(())
}

// By numbers alone: the sizes of the stream and of the outputs.
fn read_fits(
    form: CellForm,
    bytes: usize,
    start: usize,
    kinds: usize,
    numbers: usize,
    run: Stride,
) -> Result<(), Refusal>
    ensures { answered result ≡ read_fits_lem form bytes start kinds numbers run }
{
    if bytes > MAX_BYTES {
        return Err(Refusal::OverSize);
    }
    run.fits()?;
    if bytes < start || bytes - start < run.rows * form.width() {
        return Err(Refusal::OutsideTable);
    }
    let cells = run.rows * run.step;
    if kinds < cells || numbers < cells {
        return Err(Refusal::OutputRoom);
    }
    Ok(())
}

fn read_cells<F: Fixed>(
    stream: &[u8],
    start: usize,
    kinds: &mut [u8],
    numbers: &mut [i32],
    run: Stride,
)
    requires { Held F.FORM (length stream.now) start (length kinds.old) (length numbers.old) run }
    ensures { (kinds.new ≡ kinds_read F.FORM stream.now start run kinds.old) × (numbers.new ≡ numbers_read F.FORM stream.now start run numbers.old) }
{
    let width = F::FORM.width();
    for row in 0..run.rows {
        let at = start + row * width;
        let value = F::FORM.read_value(&stream[at..at + width], 0);
        let cell = row * run.step + run.column;
        kinds[cell] = value.kind();
        numbers[cell] = value.number();
    }
}
