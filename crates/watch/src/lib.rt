//! The watch: a watched domain and a board. So far its types are public, and its calls are not.
#![tactic(auto)]

pub mod call;
pub mod fault;
pub mod log_calls;
pub mod report;
pub mod report_call;
pub mod run;
pub mod told;
pub mod watch;
