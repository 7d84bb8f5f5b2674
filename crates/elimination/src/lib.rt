// Linear systems by elimination. The file of the public call is named as in the Rust: helpers.
#![tactic(auto)]

pub mod helpers;
pub mod inner;
