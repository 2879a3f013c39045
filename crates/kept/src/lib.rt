// The tables that a problem keeps, filled from bytes that the check accepts.
#![tactic(auto)]

pub mod fill;
pub mod record_tables;
