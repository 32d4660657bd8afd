// The listing of a capture as text: a record's lines, or the line of a refusal.
#![tactic(auto)]

pub mod capture;
pub mod lines;
pub mod walk;
