// Answers, configurations, parked calls and their next access as numbers: what C hands in and gets back.
#![tactic(auto)]

pub mod answer;
pub mod config;
pub mod next;
pub mod parked_call;
