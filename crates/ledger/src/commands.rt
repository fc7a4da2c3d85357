// What a line asks of the tool ledger.
pub mod command;
pub mod groups;
pub mod line;
pub mod next;

pub use command::{Command, command_of};
pub use line::Line;
pub use next::{Board, Bytes, next_line};
