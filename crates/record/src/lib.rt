// The record layer: the field tables, numbers in octets, records, reading and splitting them, the Feature value and the refusal numbers.
#![tactic(auto)]

pub mod feature;
pub mod formed;
pub mod groups;
pub mod layout;
pub mod notification;
pub mod numbers;
pub mod octets;
pub mod record;
pub mod refusal;
pub mod split;
