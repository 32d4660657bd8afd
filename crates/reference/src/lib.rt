// What the reference prints of each kind, from the rows that reading and splitting run on: its tables in Markdown, and its macros for C.
#![tactic(auto)]

pub mod flags;
pub mod header;
pub mod tables;
pub mod words;
