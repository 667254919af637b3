// Tables: a layout by value, cells read by place and in bulk, and written in bulk.
#![tactic(auto)]

mod column_write;
mod layout;
mod read;
mod write;

pub use crate::layout::Table;
