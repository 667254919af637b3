// Writing a pool stream and a data stream into a lent output.
ghost use Rattle.std.specs.Prelude.{◌≡◌};
ghost use Rattle.common.specs.Refusals.{answered};
ghost use Rattle.stringpool.specs.Pool.{rooms_of};
ghost use Rattle.stringpool.specs.Write.{pool_bytes, data_bytes, write_outcome};

use crate::pool::StringPool;
use common::Refusal;
use pool_entries::{Rooms, judge};
use pool_stream::write_stream;
use text_room::copy_in;

impl StringPool {
    // Writes the pool stream.
    pub fn write_pool(self, rooms: Rooms<'_, '_>, out: &mut [u8]) -> Result<usize, Refusal>
        ensures { (answered result, out.new) ≡ write_outcome self (rooms_of rooms.entry) (pool_bytes self (rooms_of rooms.entry)) out.old }
    {
        let long = self.long_string_refs;
        write_stream(self.num_strings, long, self.codepage, rooms, out)
    }

    // Writes the data stream: the used part of the text room, which has the texts in entry order.
    pub fn write_data(self, rooms: Rooms<'_, '_>, out: &mut [u8]) -> Result<usize, Refusal>
        ensures { (answered result, out.new) ≡ write_outcome self (rooms_of rooms.entry) (data_bytes self (rooms_of rooms.entry)) out.old }
    {
        let used = judge(self.num_strings, self.codepage, rooms)?;
        copy_in(&rooms.text[..used], out)
    }
}
