// The soft threshold and the penalties. Files are named as in the Rust: prox_funcs, separable.
#![tactic(auto)]

pub mod inner;
pub mod prox_funcs;
pub mod separable;
