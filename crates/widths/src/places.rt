// The rows of a stream, and where each column begins in it.
ghost use Rattle.std.specs.Prelude.{◌≡◌, ◌*◌, ◌/◌, ◌<◌, ◌≤◌, take};
ghost use Rattle.common.specs.Choice.{when◌then◌else◌, ◌=?◌};
ghost use Rattle.common.specs.Refusals.{answered};
ghost use Rattle.common.specs.Lists.{◌over◌, total};
ghost use Rattle.widths.specs.Widths.{zeros};
ghost use Rattle.widths.specs.Places.{starts_from, places_outcome};

use crate::widths;
use crate::widths::Widths;
use column::Column;
use common::Refusal;
use common::sizes::{MAX_BYTES, MAX_ROWS};

// Each column's width, and where it begins in the stream. They travel by value.
#[derive(Clone, Copy)]
pub struct Places {
    pub rows: usize,
    pub widths: [usize; 64],
    pub starts: [usize; 64],
}

// The complete rows of a stream of so many bytes, and the places of its columns.
pub fn places_of(
    columns: [Column; 64],
    count: usize,
    long_string_refs: bool,
    bytes: usize,
) -> Result<Places, Refusal>
    ensures { answered result ≡ places_outcome columns count long_string_refs bytes }
{
    if bytes > MAX_BYTES {
        return Err(Refusal::OverSize);
    }
    let Widths { widths, row_size } = widths::widths_of(columns, count, long_string_refs)?;
    let rows = rows_of(row_size, bytes);
    if rows > MAX_ROWS {
        return Err(Refusal::TooManyRows);
    }
    let starts = starts_of(widths, count, row_size, bytes);
    Ok(Places {
        rows,
        widths,
        starts,
    })
}

fn rows_of(row_size: usize, bytes: usize) -> usize
    ensures { result ≡ (when row_size =? 0 then 0 else bytes / row_size) }
{
    if row_size == 0 {
        return 0;
    }
    bytes / row_size
}

// Where the first `count` columns begin, column by column.
fn starts_of(widths: [usize; 64], count: usize, row_size: usize, bytes: usize) -> [usize; 64]
    requires { (count ≤ 64) × (bytes ≤ 268435455) × (total (take count widths) ≡ row_size) × (row_size ≤ 256) × (0 < count → 0 < row_size) }
    ensures { result ≡ starts_from (bytes / row_size) 0 (take count widths) over zeros }
{
    let mut starts = [0usize; 64];
    let mut before = 0;
    for c in 0..count {
        starts[c] = column_start(bytes, row_size, before);
        before += widths[c];
    }
    starts
}

// Where a column begins: for each complete row of so many bytes, the widths before the column.
fn column_start(bytes: usize, row_size: usize, before: usize) -> usize
    requires { (bytes ≤ 268435455) × (0 < row_size) × (before ≤ 256) }
    ensures { result ≡ bytes / row_size * before }
{
    bytes / row_size * before
}
