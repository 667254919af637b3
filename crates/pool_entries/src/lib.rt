// A pool's entries in the lent rooms: whether they are sound, how many bytes their texts use, and which one a take chooses, by each of two ways.
#![tactic(auto)]

mod adding;
mod choosing;
mod frees;
mod held;
mod judging;
mod preferring;
mod rooms;
mod same;
mod skips;

pub use crate::choosing::{Spot, choose};
pub use crate::held::{HeldEntries, SoundEntries};
pub use crate::judging::{judge, sound_entries};
pub use crate::preferring::prefer;
pub use crate::rooms::{Rooms, RoomsMut};
