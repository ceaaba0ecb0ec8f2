#![tactic(auto)]

pub mod anew;
pub mod cut;
pub mod twice;
