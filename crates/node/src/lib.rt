// One node: its role, its join attempt, its two key sets, its leased address, and the configurations it takes.
#![tactic(auto)]

mod delivery;
mod frames;
mod lease;
mod node;
mod range;
mod timing;

pub use delivery::DeliveryResult;
pub use frames::{SendResult, VerifyResult};
pub use lease::LeaseStatus;
pub use node::{AttemptLimits, MakeResult, Node};
pub use node_attempt::delivery::Delivery;
pub use timing::{PollResult, StartResult};
