// Columns of a table: type and marks, their bits, and the check of a value.
#![tactic(auto)]

mod bits;
mod check;
mod column;

pub use crate::column::{Column, ColumnBuilder, ValueRange};
pub use cell::ColumnType;
