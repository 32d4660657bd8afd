// The collector and the control point, which rely on the record layer's contracts only.
#![tactic(auto)]

pub mod collector;
pub mod control;
