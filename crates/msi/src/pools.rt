// The string pool. Its state is handed in and, where a call changes it, handed out; its rooms are lent to each call.
ghost use Rattle.std.specs.Prelude.{◌≡◌};
ghost use Rattle.common.specs.Answers.{nowhere, outcome, written_to};
ghost use Rattle.common.specs.Refusals.{answered};
ghost use Rattle.stringpool.specs.Pool.{rooms, rooms_of};
ghost use Rattle.common.specs.Refs.{reference};
ghost use Rattle.stringpool.specs.Load.{load_outcome};
ghost use Rattle.stringpool.specs.Pages.{new_answer, set_page_answer};
ghost use Rattle.stringpool.specs.Show.{show_answer, refcount_answer};
ghost use Rattle.stringpool.specs.Take.{take_outcome, equal_then_free_lem, first_free_or_equal};
ghost use Rattle.stringpool.specs.Drop.{drop_outcome};
ghost use Rattle.stringpool.specs.Write.{write_outcome, pool_bytes, data_bytes};
ghost use Rattle.c_types.specs.Answers.{refusal_in, count_in, answered_as};
ghost use Rattle.c_types.specs.Pools.{pool_in, taken_in, reference_in};
ghost use Rattle.msi.specs.Texts.{copied_outcome};

use c_types::answers::{Count, PoolAnswer, Reference, Refused, TakeAnswer, told};
use common::Refusal;
use stringpool::{Rooms, RoomsMut, StringPool, StringRef};

#[unsafe(no_mangle)]
pub extern "C" fn strandroost_string_ref(number: i32) -> Reference
    ensures { result ≡ reference_in (reference nowhere number) }
{
    Reference::from(told(StringRef::new(number)))
}

#[unsafe(no_mangle)]
pub extern "C" fn strandroost_new(codepage: u32) -> PoolAnswer
    ensures { result ≡ pool_in (new_answer codepage) }
{
    PoolAnswer::from(told(StringPool::new(codepage)))
}

#[unsafe(no_mangle)]
pub extern "C" fn strandroost_load(
    pool: &[u8],
    data: &[u8],
    lengths: &mut [u32],
    counts: &mut [u16],
    text: &mut [u8],
) -> PoolAnswer
    ensures { (result, rooms lengths.new counts.new text.new)
        ≡ answered_as pool_in (load_outcome pool.now «data».now (rooms lengths.old counts.old text.old)) }
{
    let mut rooms = RoomsMut {
        lengths,
        counts,
        text,
    };
    PoolAnswer::from(told(StringPool::load(pool, data, &mut rooms)))
}

#[unsafe(no_mangle)]
pub extern "C" fn strandroost_set_codepage(
    pool: StringPool,
    lengths: &[u32],
    counts: &[u16],
    text: &[u8],
    codepage: u32,
) -> PoolAnswer
    ensures { result ≡ pool_in (set_page_answer pool (rooms lengths.now counts.now text.now) codepage) }
{
    let rooms = Rooms {
        lengths,
        counts,
        text,
    };
    PoolAnswer::from(told(pool.set_codepage(rooms, codepage)))
}

#[unsafe(no_mangle)]
pub extern "C" fn strandroost_refcount(
    pool: StringPool,
    lengths: &[u32],
    counts: &[u16],
    text: &[u8],
    number: i32,
) -> Count
    ensures { result ≡ count_in (refcount_answer pool (rooms lengths.now counts.now text.now) number) }
{
    let rooms = Rooms {
        lengths,
        counts,
        text,
    };
    Count::from(told(pool.refcount(rooms, number)))
}

// The refusal of showing a reference, or none.
#[unsafe(no_mangle)]
pub extern "C" fn strandroost_get_refusal(
    pool: StringPool,
    lengths: &[u32],
    counts: &[u16],
    text: &[u8],
    number: i32,
) -> Refused
    ensures { result ≡ refusal_in (show_answer pool (rooms lengths.now counts.now text.now) number) }
{
    let rooms = Rooms {
        lengths,
        counts,
        text,
    };
    Refused::from(told(pool.get_refusal(rooms, number)))
}

// A part of the text room, copied to the output whole or not at all.
pub(crate) fn copied(part: &[u8], out: &mut [u8]) -> Result<usize, Refusal>
    ensures { (answered result, out.new) ≡ outcome out.old (written_to out.old part.now) }
{
    let bytes = part.len();
    if out.len() < bytes {
        return Err(Refusal::OutputRoom);
    }
    out[..bytes].copy_from_slice(part);
    Ok(bytes)
}

fn text_to(
    pool: StringPool,
    rooms: Rooms<'_, '_>,
    number: i32,
    out: &mut [u8],
) -> Result<usize, Refusal>
    ensures { (answered result, out.new) ≡ copied_outcome (show_answer pool (rooms_of rooms.entry) number) out.old }
{
    pool.get_refusal(rooms, number)?;
    copied(pool.get(rooms, number), out)
}

// The text of a reference. An exported call cannot hand out a part of a lent room, so the text is copied to an output.
#[unsafe(no_mangle)]
pub extern "C" fn strandroost_get(
    pool: StringPool,
    lengths: &[u32],
    counts: &[u16],
    text: &[u8],
    number: i32,
    out: &mut [u8],
) -> Count
    ensures { (result, out.new) ≡ answered_as count_in (copied_outcome (show_answer pool (rooms lengths.now counts.now text.now) number) out.old) }
{
    let rooms = Rooms {
        lengths,
        counts,
        text,
    };
    Count::from(told(text_to(pool, rooms, number, out)))
}

// The default: an equal entry that can count up, else the first free one, else a new one.
#[unsafe(no_mangle)]
pub extern "C" fn strandroost_incref(
    pool: StringPool,
    lengths: &mut [u32],
    counts: &mut [u16],
    text: &mut [u8],
    new: &[u8],
) -> TakeAnswer
    ensures { (result, rooms lengths.new counts.new text.new)
        ≡ answered_as taken_in (take_outcome equal_then_free_lem pool (rooms lengths.old counts.old text.old) new.now) }
{
    let mut rooms = RoomsMut {
        lengths,
        counts,
        text,
    };
    TakeAnswer::from(told(pool.incref(&mut rooms, new)))
}

// Document 01's choice, the crate's: the first entry that is free or equal.
#[unsafe(no_mangle)]
pub extern "C" fn strandroost_incref_first(
    pool: StringPool,
    lengths: &mut [u32],
    counts: &mut [u16],
    text: &mut [u8],
    new: &[u8],
) -> TakeAnswer
    ensures { (result, rooms lengths.new counts.new text.new)
        ≡ answered_as taken_in (take_outcome first_free_or_equal pool (rooms lengths.old counts.old text.old) new.now) }
{
    let mut rooms = RoomsMut {
        lengths,
        counts,
        text,
    };
    TakeAnswer::from(told(pool.incref_first(&mut rooms, new)))
}

#[unsafe(no_mangle)]
pub extern "C" fn strandroost_decref(
    pool: StringPool,
    lengths: &mut [u32],
    counts: &mut [u16],
    text: &mut [u8],
    number: i32,
) -> PoolAnswer
    ensures { (result, rooms lengths.new counts.new text.new)
        ≡ answered_as pool_in (drop_outcome pool (rooms lengths.old counts.old text.old) number) }
{
    let mut rooms = RoomsMut {
        lengths,
        counts,
        text,
    };
    PoolAnswer::from(told(pool.decref(&mut rooms, number)))
}

#[unsafe(no_mangle)]
pub extern "C" fn strandroost_write_pool(
    pool: StringPool,
    lengths: &[u32],
    counts: &[u16],
    text: &[u8],
    out: &mut [u8],
) -> Count
    ensures { (result, out.new)
        ≡ answered_as count_in (write_outcome pool (rooms lengths.now counts.now text.now)
        (pool_bytes pool (rooms lengths.now counts.now text.now)) out.old) }
{
    let rooms = Rooms {
        lengths,
        counts,
        text,
    };
    Count::from(told(pool.write_pool(rooms, out)))
}

#[unsafe(no_mangle)]
pub extern "C" fn strandroost_write_data(
    pool: StringPool,
    lengths: &[u32],
    counts: &[u16],
    text: &[u8],
    out: &mut [u8],
) -> Count
    ensures { (result, out.new)
        ≡ answered_as count_in (write_outcome pool (rooms lengths.now counts.now text.now)
        (data_bytes pool (rooms lengths.now counts.now text.now)) out.old) }
{
    let rooms = Rooms {
        lengths,
        counts,
        text,
    };
    Count::from(told(pool.write_data(rooms, out)))
}
