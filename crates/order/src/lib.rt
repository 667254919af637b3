// Document 01, "Order": which refusal a call meets first, by numbers alone.
#![tactic(auto)]

mod change;
mod load;
mod table;

pub use crate::change::{add_fits, drop_fits, page_fits};
pub use crate::load::{load_fits, streams_fit};
pub use crate::table::{bulk_fits, cell_fits};
