// All that stands under both drivers: register words, configuration and timing, answers, the log of accesses, construction.
#![tactic(auto)]

pub mod answers;
pub mod call_log;
pub mod config;
pub mod construct;
pub mod cr1;
pub mod cr2;
pub mod data_registers;
pub mod field;
pub mod flag_order;
pub mod isr;
pub mod oar;
pub mod offsets;
pub mod timing;
