// The command language of desk/PROTOCOL.md, for the crates that answer it: words read from a text by their places, answers written,
// and the places of lent memory.
#![tactic(auto)]

pub mod kept;
pub mod lists;
pub mod numbers;
pub mod places;
pub mod shown;
pub mod values;
pub mod words;
