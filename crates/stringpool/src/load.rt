// Loading a pool stream and a data stream into the lent rooms.
ghost use Rattle.std.specs.Prelude.{◌≡◌};
ghost use Rattle.common.specs.Refusals.{answered};
ghost use Rattle.stringpool.specs.Pool.{rooms_held, SameRooms};
ghost use Rattle.stringpool.specs.Load.{pool_from_lem, load_outcome};

use crate::pool::StringPool;
use common::Refusal;
use little_endian::read;
use pool_entries::RoomsMut;
use pool_stream::load_rooms;
use text_room::copy_in;

impl StringPool {
    // Loads a pool stream and a data stream into the lent rooms.
    pub fn load(pool: &[u8], texts: &[u8], rooms: &mut RoomsMut<'_>) -> Result<StringPool, Refusal>
        ensures same { SameRooms rooms.old rooms.new }
        ensures outcome { (answered result, rooms_held rooms.new) ≡ load_outcome pool.now texts.now (rooms_held rooms.old) }
    {
        let plan = load_rooms(pool, texts.len(), rooms)?;
        copy_in(&texts[..plan.used], rooms.text).unwrap();
        Ok(pool_from(pool, plan.entries))
    }
}

// The mark and the code page of the first four bytes, with a count of entries.
fn pool_from(s: &[u8], n: usize) -> StringPool
    ensures { result ≡ pool_from_lem s.now n }
{
    let mark = read(s, 0, 4);
    StringPool {
        num_strings: n,
        long_string_refs: mark >= 0x8000_0000,
        codepage: mark % 0x8000_0000,
    }
}
