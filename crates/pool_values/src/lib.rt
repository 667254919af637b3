// Values and the string pool: a value is created with its text, removed, and shown again. A text stands beside the enum.
#![tactic(auto)]

ghost use Rattle.std.specs.Prelude.{◌≡◌, pos};
ghost use Rattle.common.specs.Refusals.{answered};
ghost use Rattle.stringpool.specs.Pool.{rooms_of, rooms_held, SameRooms};
ghost use Rattle.stringpool.specs.Take.{first_free_or_equal, equal_then_free_lem};
ghost use Rattle.stringpool.specs.Show.{or_empty};
ghost use Rattle.cell.specs.Kinds.{ref_kind, ref_number, value_kind, value_number};
ghost use Rattle.pool_values.specs.Pooled.{created_as, plain_answer, create_outcome, remove_outcome, shown_as, shown_answer, text_answer};
ghost use Rattle.pool_values.specs.inner.Pooled.{plain_of_lem, shown_of_lem, text_created};
ghost use Rattle.common.specs.Choice.{when◌then◌else◌, ◌=?◌};
ghost use Rattle.common.specs.Answers.{outcome};

pub use cell::Value;
use cell::ValueRef;
use common::Refusal;
use common::sizes::MAX_BYTES;
use stringpool::{Rooms, RoomsMut, StringPool, StringRef, Taken};

// A value that was created, and the pool after it.
#[derive(Clone, Copy)]
pub struct Created {
    pub value: ValueRef,
    pub pool: StringPool,
}

// A text is taken into the pool, by the default choice; any other value leaves it as it is.
pub fn create(
    value: Value,
    new: &[u8],
    pool: StringPool,
    rooms: &mut RoomsMut<'_>,
) -> Result<Created, Refusal>
    ensures same { SameRooms rooms.old rooms.new }
    ensures outcome { (created_as result, rooms_held rooms.new)
        ≡ create_outcome equal_then_free_lem (value_kind value) (value_number value) new.now pool (rooms_held rooms.old) }
{
    match plain_of(value) {
        Some(plain) => create_plain(plain, new, pool, rooms.view()),
        None => Ok(Created::from(pool.incref(rooms, new)?)),
    }
}

// The same by the old choice, document 01's.
pub fn create_first(
    value: Value,
    new: &[u8],
    pool: StringPool,
    rooms: &mut RoomsMut<'_>,
) -> Result<Created, Refusal>
    ensures same { SameRooms rooms.old rooms.new }
    ensures outcome { (created_as result, rooms_held rooms.new)
        ≡ create_outcome first_free_or_equal (value_kind value) (value_number value) new.now pool (rooms_held rooms.old) }
{
    match plain_of(value) {
        Some(plain) => create_plain(plain, new, pool, rooms.view()),
        None => Ok(Created::from(pool.incref_first(rooms, new)?)),
    }
}

// A reference is dropped; any other value leaves the pool as it is.
pub fn remove(
    value: ValueRef,
    pool: StringPool,
    rooms: &mut RoomsMut<'_>,
) -> Result<StringPool, Refusal>
    ensures same { SameRooms rooms.old rooms.new }
    ensures outcome { (answered result, rooms_held rooms.new)
        ≡ remove_outcome (ref_kind value) (ref_number value) pool (rooms_held rooms.old) }
{
    if is_reference(value) {
        return pool.decref(rooms, value.number());
    }
    pool.get_refusal(rooms.view(), StringRef::MIN)?;
    Ok(pool)
}

// The value; where it is a text, `to_text` hands it out.
pub fn to_value(value: ValueRef, pool: StringPool, rooms: Rooms<'_, '_>) -> Result<Value, Refusal>
    ensures { shown_as result ≡ shown_answer (ref_kind value) (ref_number value) pool (rooms_of rooms.entry) }
{
    pool.get_refusal(rooms, asked_for(value))?;
    Ok(shown_of(value))
}

// The text of a reference as a part of the lent text room; empty for any other value, and where the call is refused.
pub fn to_text<'a>(value: ValueRef, pool: StringPool, rooms: Rooms<'_, 'a>) -> &'a [u8]
    ensures { result.now ≡ or_empty (text_answer (ref_kind value) (ref_number value) pool (rooms_of rooms.entry)) }
{
    if is_reference(value) {
        return pool.get(rooms, value.number());
    }
    &rooms.text[..0]
}

// What is created of a value that is no text.
fn create_plain(
    value: ValueRef,
    new: &[u8],
    pool: StringPool,
    rooms: Rooms<'_, '_>,
) -> Result<Created, Refusal>
    ensures { (created_as result, rooms_of rooms.entry)
        ≡ outcome (rooms_of rooms.entry) (plain_answer (ref_kind value) (ref_number value) new.now pool (rooms_of rooms.entry)) }
{
    if MAX_BYTES < new.len() {
        return Err(Refusal::OverSize);
    }
    pool.get_refusal(rooms, StringRef::MIN)?;
    Ok(Created { value, pool })
}

impl From<Taken> for Created {
    ghost from_gives = { λ t c. c ≡ text_created t };

    // A text that was taken.
    fn from(taken: Taken) -> Created {
        Created {
            value: ValueRef::Str(taken.reference),
            pool: taken.pool,
        }
    }
}

// The value as it is stored, where it is no text.
fn plain_of(value: Value) -> Option<ValueRef>
    ensures { result ≡ plain_of_lem value }
{
    match value {
        Value::Null => Some(ValueRef::Null),
        Value::Int(n) => Some(ValueRef::Int(n)),
        Value::Str => None,
        Value::Binary => Some(ValueRef::Binary),
    }
}

// The number that is looked up: a reference's own, else the least, which every sound pool shows.
fn asked_for(value: ValueRef) -> i32
    ensures { result ≡ (when ref_kind value =? 2 then ref_number value else pos 1) }
{
    if is_reference(value) {
        return value.number();
    }
    StringRef::MIN
}

fn is_reference(value: ValueRef) -> bool
    ensures { result ≡ (ref_kind value =? 2) }
{
    matches!(value, ValueRef::Str(_))
}

fn shown_of(value: ValueRef) -> Value
    ensures { result ≡ shown_of_lem value }
{
    match value {
        ValueRef::Null => Value::Null,
        ValueRef::Int(n) => Value::Int(n),
        ValueRef::Str(_) => Value::Str,
        ValueRef::Binary => Value::Binary,
    }
}
