//! Errors with their file spans and calls, and the exceptions of faults.
#![tactic(auto)]

pub mod error;
pub mod eval_exception;
pub mod fault_exception;
