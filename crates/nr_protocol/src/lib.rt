//! Laws about what the protocol never does, on every world that steps lead to, whatever their order. The laws are
//! public functions with an empty body, whose contract is the law. Nothing runs here.
#![tactic(auto)]

pub mod sleep;
