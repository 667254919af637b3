// Take: one reference more on a text.
ghost use Rattle.std.specs.Prelude.{◌≡◌, ◌<◌};
ghost use Rattle.stringpool.specs.Pool.{rooms_of, rooms_held, SameRooms};
ghost use Rattle.stringpool.specs.Take.{taken_of, taken_as, take_outcome, Chooser, Legal, first_free_or_equal, equal_then_free_lem};
ghost use Rattle.stringpool.specs.inner.Plan.{Planned};
ghost use Rattle.stringpool.specs.inner.Take.{Chosen, IsChosen, taken_by, holding_at, Numbered};

use crate::entry::{Plan, carry_out};
use crate::pool::StringPool;
use crate::refs::EntryPlace;
use common::{Refusal, StringRef};
use order::add_fits;
use pool_entries::{Rooms, RoomsMut, Spot, choose, prefer};
use pool_stream::entry_room;
use text_room::Part;

// What a take hands out: the text's reference, and the pool after it.
#[derive(Clone, Copy)]
pub struct Taken {
    pub reference: StringRef,
    pub pool: StringPool,
}

impl StringPool {
    // One reference more on the text new: its number, and the pool after.
    // The default: an equal entry that can count up, else the first free one, else a new one.
    pub fn incref(self, rooms: &mut RoomsMut<'_>, new: &[u8]) -> Result<Taken, Refusal>
        ensures same { SameRooms rooms.old rooms.new }
        ensures outcome { (taken_as result, rooms_held rooms.new) ≡ take_outcome equal_then_free_lem self (rooms_held rooms.old) new.now }
    {
        let spot = prefer(self.num_strings, self.codepage, rooms.view(), new)?;
        take_chosen(self, spot, rooms, new)
    }

    // Document 01's choice, the crate's: the first entry that is free or equal.
    pub fn incref_first(self, rooms: &mut RoomsMut<'_>, new: &[u8]) -> Result<Taken, Refusal>
        ensures same { SameRooms rooms.old rooms.new }
        ensures outcome { (taken_as result, rooms_held rooms.new) ≡ take_outcome first_free_or_equal self (rooms_held rooms.old) new.now }
    {
        let spot = choose(self.num_strings, self.codepage, rooms.view(), new)?;
        take_chosen(self, spot, rooms, new)
    }
}

// The take of the entry that a legal choice has.
fn take_chosen(
    p: StringPool,
    spot: Spot,
    rooms: &mut RoomsMut<'_>,
    new: &[u8],
) -> Result<Taken, Refusal>
    requires { Chosen p (rooms_held rooms.old) new.now spot }
    ensures same { SameRooms rooms.old rooms.new }
    ensures outcome { (by : Chooser) → Legal by → IsChosen by p (rooms_held rooms.old) new.now spot
        → (taken_as result, rooms_held rooms.new) ≡ take_outcome by p (rooms_held rooms.old) new.now }
{
    let plan = plan_take(p, spot, rooms.view(), new)?;
    carry_out(plan, rooms, new);
    Ok(take_answer(p, plan))
}

// What follows for the entry that a legal choice has.
fn plan_take(p: StringPool, spot: Spot, rooms: Rooms<'_, '_>, new: &[u8]) -> Result<Plan, Refusal>
    requires { Chosen p (rooms_of rooms) new.now spot }
    ensures { (by : Chooser) → Legal by → IsChosen by p (rooms_of rooms.entry) new.now spot
        → Planned (take_outcome by p (rooms_of rooms.entry) new.now) (taken_by p) result (rooms_of rooms.entry) new.now }
{
    let Spot {
        place: at,
        start,
        used,
    } = spot;
    let room = rooms.text.len();
    if at >= p.num_strings {
        let entries = entry_room(rooms.lengths.len(), rooms.counts.len());
        add_fits(p.long_string_refs, at, entries, used + new.len(), room)?;
        let part = Part {
            start,
            old: 0,
            used,
        };
        return Ok(Plan::Put { at, part, count: 1 });
    }
    let count = rooms.counts[at];
    if count > 0 {
        return Ok(Plan::Count(at, count + 1));
    }
    let old = rooms.lengths[at] as usize;
    if used - old + new.len() > room {
        return Err(Refusal::TextRoom);
    }
    let part = Part { start, old, used };
    Ok(Plan::Put { at, part, count: 1 })
}

// What a take of that plan hands out: where an entry is added, the pool has grown.
fn take_answer(p: StringPool, plan: Plan) -> Taken
    requires { Numbered plan }
    ensures { taken_of result ≡ taken_by p plan }
{
    let at = match plan {
        Plan::Count(at, _) | Plan::Put { at, .. } => at,
    };
    Taken {
        reference: EntryPlace(at).reference(),
        pool: holding(p, at),
    }
}

// The pool with an entry at the place.
fn holding(p: StringPool, at: usize) -> StringPool
    requires { at < 16777215 }
    ensures { result ≡ holding_at p at }
{
    if at < p.num_strings {
        return p;
    }
    StringPool {
        num_strings: at + 1,
        ..p
    }
}
