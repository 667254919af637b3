// Show: the text of a reference as a part of the lent text room, and its count.
ghost use Rattle.std.specs.Prelude.{◌≡◌};
ghost use Rattle.common.specs.Answers.{refusal_of};
ghost use Rattle.common.specs.Refusals.{answered};
ghost use Rattle.stringpool.specs.Pool.{rooms_of};
ghost use Rattle.stringpool.specs.Show.{show_answer, refcount_answer, or_empty};
ghost use Rattle.stringpool.specs.inner.Show.{shown_as};

use crate::entry::{count_of, start_of};
use crate::pool::StringPool;
use crate::refs::EntryPlace;
use common::{Refusal, StringRef};
use pool_entries::{Rooms, judge};

impl StringPool {
    // The text of a reference number; the empty part past the last entry, or where the call is refused.
    pub fn get<'a>(self, rooms: Rooms<'_, 'a>, number: i32) -> &'a [u8]
        ensures { result.now ≡ or_empty (show_answer self (rooms_of rooms.entry) number) }
    {
        show(self, rooms, number).unwrap_or(&rooms.text[..0])
    }

    // The refusal of showing a reference number, or none.
    pub fn get_refusal(self, rooms: Rooms<'_, '_>, number: i32) -> Result<(), Refusal>
        ensures { answered result ≡ refusal_of (show_answer self (rooms_of rooms.entry) number) }
    {
        judge(self.num_strings, self.codepage, rooms)?;
        StringRef::new(number)?;
        Ok(())
    }

    #[tactic(auto, using(crate::proofs::Judging::judged))]
    // How many references count on a number, 0 past the end.
    pub fn refcount(self, rooms: Rooms<'_, '_>, number: i32) -> Result<u16, Refusal>
        ensures { answered result ≡ refcount_answer self (rooms_of rooms.entry) number }
    {
        judge(self.num_strings, self.codepage, rooms)?;
        let place = EntryPlace::try_from(number)?;
        Ok(count_of(self.num_strings, rooms.counts, place.0))
    }
}

// The text of a reference number, the empty part past the last entry.
#[tactic(auto, using(crate::proofs::Judging::judged))]
fn show<'a>(p: StringPool, rooms: Rooms<'_, 'a>, number: i32) -> Result<&'a [u8], Refusal>
    ensures { shown_as result ≡ show_answer p (rooms_of rooms.entry) number }
{
    judge(p.num_strings, p.codepage, rooms)?;
    let at = EntryPlace::try_from(number)?.0;
    if at >= p.num_strings {
        return Ok(&rooms.text[..0]);
    }
    let start = start_of(rooms.lengths, at);
    let end = start + rooms.lengths[at] as usize;
    Ok(&rooms.text[start..end])
}
