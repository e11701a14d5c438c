//! The reference monitor: one table of people and slots under a label scheme, and the calls on it.
#![tactic(auto)]

mod access;
mod call;
mod fault;
mod monitor;
mod reply;
mod session;
mod sheet;

pub use call::{Answer, Call};
pub use fault::MonitorFault;
pub use monitor::Monitor;
pub use reply::Reply;
pub use session::{boxes_are_untraced, play};
