//! The window's text protocol: from the bytes that are read to the bytes that are printed.
#![tactic(auto)]

mod answering;
mod buffered;
mod digits;
mod fields;
mod lines;
mod printing;
mod reader;
mod replies;
mod session;
mod window;

pub use buffered::{respond_into, room_for};
pub use lines::lines_stand;
pub use reader::{CallReader, reading_stands};
pub use session::respond;
