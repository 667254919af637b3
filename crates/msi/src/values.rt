// Values and the string pool: a value's kind and number, its text beside it.
ghost use Rattle.std.specs.Prelude.{◌≡◌};
ghost use Rattle.common.specs.Answers.{outcome};
ghost use Rattle.stringpool.specs.Pool.{rooms, rooms_of};
ghost use Rattle.stringpool.specs.Take.{equal_then_free_lem, first_free_or_equal};
ghost use Rattle.c_types.specs.Answers.{count_in, answered_as, told_lem};
ghost use Rattle.c_types.specs.Pools.{pool_in};
ghost use Rattle.c_types.specs.Tables.{cell_in};
ghost use Rattle.c_types.specs.Values.{create_by, remove_by, shown_by, text_by, created_in};
ghost use Rattle.msi.specs.Texts.{copied_outcome};

use crate::pools::copied;
use c_types::answers::{CellAnswer, Count, CreateAnswer, PoolAnswer, Refused, known, of_kind};
use c_types::values::{plain_in, value_in};
use common::Place;
use stringpool::{Rooms, RoomsMut, StringPool};

// A text is taken into the pool, by the default choice; any other value leaves it as it is.
#[unsafe(no_mangle)]
pub extern "C" fn strandroost_create(
    kind: u8,
    number: i32,
    new: &[u8],
    pool: StringPool,
    lengths: &mut [u32],
    counts: &mut [u16],
    text: &mut [u8],
) -> CreateAnswer
    ensures { (result, rooms lengths.new counts.new text.new)
        ≡ answered_as created_in (outcome (rooms lengths.old counts.old text.old)
        (create_by equal_then_free_lem kind number new.now pool (rooms lengths.old counts.old text.old))) }
{
    let mut rooms = RoomsMut {
        lengths,
        counts,
        text,
    };
    let created = pool_values::create(plain_in(kind, number), new, pool, &mut rooms);
    CreateAnswer::from(of_kind(kind, created))
}

// The same by document 01's choice.
#[unsafe(no_mangle)]
pub extern "C" fn strandroost_create_first(
    kind: u8,
    number: i32,
    new: &[u8],
    pool: StringPool,
    lengths: &mut [u32],
    counts: &mut [u16],
    text: &mut [u8],
) -> CreateAnswer
    ensures { (result, rooms lengths.new counts.new text.new)
        ≡ answered_as created_in (outcome (rooms lengths.old counts.old text.old)
        (create_by first_free_or_equal kind number new.now pool (rooms lengths.old counts.old text.old))) }
{
    let mut rooms = RoomsMut {
        lengths,
        counts,
        text,
    };
    let created = pool_values::create_first(plain_in(kind, number), new, pool, &mut rooms);
    CreateAnswer::from(of_kind(kind, created))
}

// A reference is dropped; any other value leaves the pool as it is.
#[unsafe(no_mangle)]
pub extern "C" fn strandroost_remove(
    kind: u8,
    number: i32,
    pool: StringPool,
    lengths: &mut [u32],
    counts: &mut [u16],
    text: &mut [u8],
) -> PoolAnswer
    ensures { (result, rooms lengths.new counts.new text.new)
        ≡ answered_as pool_in (outcome (rooms lengths.old counts.old text.old)
        (remove_by kind number pool (rooms lengths.old counts.old text.old))) }
{
    let mut rooms = RoomsMut {
        lengths,
        counts,
        text,
    };
    let removed = pool_values::remove(value_in(kind, number), pool, &mut rooms);
    PoolAnswer::from(of_kind(kind, removed))
}

// The value that a cell stands for; where it is a text, `strandroost_to_text` copies it.
#[unsafe(no_mangle)]
pub extern "C" fn strandroost_to_value(
    kind: u8,
    number: i32,
    pool: StringPool,
    lengths: &[u32],
    counts: &[u16],
    text: &[u8],
) -> CellAnswer
    ensures { result ≡ cell_in (shown_by kind number pool (rooms lengths.now counts.now text.now)) }
{
    let rooms = Rooms {
        lengths,
        counts,
        text,
    };
    let shown = pool_values::to_value(value_in(kind, number), pool, rooms);
    CellAnswer::from(of_kind(kind, shown))
}

// The text of a cell that holds a reference, none of any other.
#[unsafe(no_mangle)]
pub extern "C" fn strandroost_to_text(
    kind: u8,
    number: i32,
    pool: StringPool,
    lengths: &[u32],
    counts: &[u16],
    text: &[u8],
    out: &mut [u8],
) -> Count
    ensures { (result, out.new)
        ≡ answered_as count_in (copied_outcome (text_by kind number pool (rooms lengths.now counts.now text.now)) out.old) }
{
    let rooms = Rooms {
        lengths,
        counts,
        text,
    };
    Count::from(text_to(kind, number, pool, rooms, out))
}

fn text_to(
    kind: u8,
    number: i32,
    pool: StringPool,
    rooms: Rooms<'_, '_>,
    out: &mut [u8],
) -> Result<usize, Refused>
    ensures { (result, out.new) ≡ answered_as told_lem (copied_outcome (text_by kind number pool (rooms_of rooms.entry)) out.old) }
{
    let value = value_in(kind, number);
    pool_values::to_value(value, pool, rooms)?;
    known(kind, Place::Nowhere)?;
    Ok(copied(pool_values::to_text(value, pool, rooms), out)?)
}
