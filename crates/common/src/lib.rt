// What every crate of the port stands on: the refusals of document 01 with their numbers and places, its sizes, and the
// reference number.
// specs/ has the form in which every call's meaning is written, proofs/ the laws that every crate cites.
#![tactic(auto)]

mod refusal;
pub mod sizes;
mod string_ref;

pub use crate::refusal::{Place, Refusal};
pub use crate::string_ref::StringRef;
