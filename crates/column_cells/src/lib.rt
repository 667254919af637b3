// The cells of one column among those of all, judged and read.
#![tactic(auto)]

mod judge;
mod read;
mod stride;

pub use crate::judge::judge_column;
pub use crate::read::read_column;
pub use crate::stride::Stride;
