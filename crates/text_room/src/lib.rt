// The text room of a pool: its texts stand end to end, and one is put in the place of another.
#![tactic(auto)]

mod text;

pub use crate::text::{Part, copy_in, replace};
