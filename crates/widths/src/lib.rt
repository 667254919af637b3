// The widths of a table's columns, its rows in a stream, and where each column begins there. Its layout is judged on the way.
#![tactic(auto)]

mod places;
mod widths;

pub use crate::places::{Places, places_of};
pub use crate::widths::{Widths, widths_of};
