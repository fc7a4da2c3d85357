// Five calls of a node on its lent image (poll, lease question, send, receive, verified): each judges the node where it stands, reads the
// parts that it needs and writes the part that changes. None loads the whole node, so that none needs the stack for one.
#![tactic(auto)]

mod attempt;
mod find;
mod frames;
mod lease;
mod serve;
mod switch;

pub use attempt::poll_in;
pub use frames::{receive_in, send_in, verified_in};
pub use lease::address_holds_in;
