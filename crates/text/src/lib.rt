// Writing text into a lent buffer, and the names of the fields: for the listing and the reference's tables.
#![tactic(auto)]

pub mod names;
pub mod text;
