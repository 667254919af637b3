// The string pool: entries with a reference count each, their texts end to end in a lent text room.
#![tactic(auto)]

mod drops;
mod entry;
mod load;
mod pages;
mod pool;
mod refs;
mod shows;
mod takes;
mod writes;

pub use crate::pool::StringPool;
pub use crate::takes::Taken;
pub use common::StringRef;
pub use pool_entries::{Rooms, RoomsMut};
