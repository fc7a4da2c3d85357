// What a line asks of simulate.
#![tactic(auto)]

pub mod command;
pub mod edit;
pub mod next;
pub mod verb;

pub use command::Command;
pub use edit::Edit;
pub use next::next_command;
pub use verb::Verb;
