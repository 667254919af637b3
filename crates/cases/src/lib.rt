// The thirteen cases of document 01's proved table, run through the public calls. Each answers and leaves what the call of
// its question in specs/Cases.antt does.
#![tactic(auto)]

mod names;
mod pools;
mod tables;

pub use crate::names::{Units, case_a, case_b, case_c, case_d};
pub use crate::pools::{Left, Pool, Take, case_k, case_l, loaded, taken_on};
pub use crate::tables::{Bytes, case_e, case_f, case_g, case_h, case_i, case_j, case_m};
