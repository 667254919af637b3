// The entries of a pool stream, read into lent lengths and counts and written from them; a load is settled before a byte is
// written.
#![tactic(auto)]

mod entry;
mod load;
mod plan;
mod write;

pub use crate::load::{entry_room, load_entries, load_rooms};
pub use crate::plan::LoadPlan;
pub use crate::write::write_stream;
