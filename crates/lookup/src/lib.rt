#![tactic(auto)]

pub mod in_file;
pub mod in_segment;
pub mod payload;
pub mod place;
pub mod vector;
