// Each column's width, and the row size.
ghost use Rattle.std.specs.Prelude.{◌≡◌};
ghost use Rattle.common.specs.Refusals.{answered};
ghost use Rattle.widths.specs.Widths.{widths_outcome};

use column::Column;
use common::Refusal;
use common::sizes::MAX_COLUMNS;

// They travel by value.
#[derive(Clone, Copy)]
pub struct Widths {
    pub widths: [usize; 64],
    pub row_size: usize,
}

// The first `count` of the columns, judged and measured in order.
pub fn widths_of(
    columns: [Column; 64],
    count: usize,
    long_string_refs: bool,
) -> Result<Widths, Refusal>
    ensures { answered result ≡ widths_outcome columns count long_string_refs }
{
    if count > MAX_COLUMNS {
        return Err(Refusal::TooManyColumns);
    }
    let mut widths = [0usize; 64];
    let mut row_size = 0;
    for (c, column) in columns[..count].iter().enumerate() {
        let width = column.coltype.form(c, long_string_refs)?.width();
        widths[c] = width;
        row_size += width;
    }
    Ok(Widths { widths, row_size })
}
