//! What a legal history prints, as a checker of transcripts sees it.
#![tactic(auto)]

pub mod law;
