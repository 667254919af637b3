// The port's calls for C and Rust: each is handed its arguments as C has them, and answers a struct of numbers (crates/c_types).
#![tactic(auto)]

mod columns;
mod names;
mod pools;
mod tables;
mod values;
