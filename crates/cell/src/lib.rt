// A cell of a table: what it holds, on reading and for writing, the types of columns, and the form in which each stores it.
#![tactic(auto)]

pub mod fixed;
mod form;
mod value;

pub use crate::form::{CellForm, ColumnType};
pub use crate::value::{Cell, Value, ValueRef};
