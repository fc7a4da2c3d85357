// The journal of an address ledger: the bytes that a program appends and syncs before it answers a call, and the ledger resumed from
// them.
#![tactic(auto)]

mod calls;
mod crc;
mod due;
mod format;
mod held;
mod resume;
mod share;

pub use calls::{RecordedCall, give_back, grant};
pub use crc::crc32;
pub use format::{header_check, header_of};
pub use held::{held_address, holder_of};
pub use resume::{DAMAGED, ResumeError, ResumeResult, ResumeStep, resume_header, resume_record};
pub use share::{Part, part_of};
