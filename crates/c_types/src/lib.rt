// What the exported calls are handed and what they answer, as C has it. A refusal is document 01's number with its place; what
// was not given is 0.
#![tactic(auto)]

pub mod answers;
pub mod columns;
pub mod names;
pub mod pools;
pub mod tables;
pub mod values;
