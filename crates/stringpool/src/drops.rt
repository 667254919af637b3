// Drop: one reference less on an entry.
ghost use Rattle.std.specs.Prelude.{◌≡◌, []};
ghost use Rattle.common.specs.Refusals.{answered};
ghost use Rattle.stringpool.specs.Pool.{rooms_of, rooms_held, SameRooms};
ghost use Rattle.stringpool.specs.Drop.{drop_outcome};
ghost use Rattle.stringpool.specs.inner.Plan.{Planned};

use crate::entry::{Plan, carry_out, count_of, start_of};
use crate::pool::StringPool;
use crate::refs::EntryPlace;
use common::Refusal;
use order::drop_fits;
use pool_entries::{Rooms, RoomsMut, judge};
use text_room::Part;

impl StringPool {
    // One reference less on a number; at 0 the entry's text goes.
    pub fn decref(self, rooms: &mut RoomsMut<'_>, number: i32) -> Result<StringPool, Refusal>
        ensures same { SameRooms rooms.old rooms.new }
        ensures outcome { (answered result, rooms_held rooms.new) ≡ drop_outcome self (rooms_held rooms.old) number }
    {
        let plan = plan_drop(self, rooms.view(), number)?;
        carry_out(plan, rooms, &[]);
        Ok(self)
    }
}

// What a drop is to do.
#[tactic(auto, using(crate::proofs::Judging::judged))]
fn plan_drop(p: StringPool, rooms: Rooms<'_, '_>, number: i32) -> Result<Plan, Refusal>
    ensures { Planned (drop_outcome p (rooms_of rooms.entry) number) (λ x. p) result (rooms_of rooms.entry) [] }
{
    let used = judge(p.num_strings, p.codepage, rooms)?;
    let at = EntryPlace::try_from(number)?.0;
    let count = count_of(p.num_strings, rooms.counts, at);
    drop_fits(p.num_strings, at, count)?;
    if count > 1 {
        return Ok(Plan::Count(at, count - 1));
    }
    let start = start_of(rooms.lengths, at);
    let old = rooms.lengths[at] as usize;
    Ok(Plan::Put {
        at,
        part: Part { start, old, used },
        count: 0,
    })
}
