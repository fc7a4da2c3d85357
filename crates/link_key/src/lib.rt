// A link-layer key: its limits, when two are equal, and which frames it covers.
#![tactic(auto)]

pub mod additional_info;
pub mod set;
pub mod usage;

ghost use Rattle.std.specs.Prelude.{◌≡◌};
ghost use Rattle.link_key.specs.Key.{key_with_additional_info, key_of, no_key, valid_key};
ghost use Rattle.link_key.specs.Key.{has_no_additional_info, same_key, same_secret, covers, coverage_of};
ghost use Rattle.link_key.specs.Laws.{SameKeyLaws};

use crate::usage::entry_at;
pub use additional_info::{AdditionalInfo, PaddedBytes, additional_info_bytes};
use refusal::Refusal;

#[derive(Clone, Copy, PartialEq, Eq)]
pub struct Key {
    // The key index that frames carry.
    pub identifier: u8,
    // The number of its entry in the usage list.
    pub usage: u8,
    pub value: [u8; 16],
    // Additional information (RFC 9031); a key of draft 004 has none.
    pub info: AdditionalInfo,
}

// The one place that makes a key.
pub fn key_with(identifier: u8, usage: u8, value: [u8; 16], info: AdditionalInfo) -> Key
    ensures { result ≡ key_with_additional_info identifier usage value info }
{
    Key {
        identifier,
        usage,
        value,
        info,
    }
}

// A key without additional information.
pub fn key_of(identifier: u8, usage: u8, value: [u8; 16]) -> Key
    ensures { result ≡ key_of identifier usage value }
{
    key_with(identifier, usage, value, AdditionalInfo::Absent)
}

// The key that is all zero, which stands where there is none.
pub fn no_key() -> Key
    ensures { result ≡ no_key }
{
    key_of(0, 0, [0u8; 16])
}

impl Key {
    // Whether identifier and usage are within document 01's limits; the value has 16 bytes by its type.
    #[tactic(auto, unfolding(crate::specs::Key::valid_key))]
    pub fn valid(self) -> bool
        ensures { result ≡ valid_key self }
    {
        self.identifier != 0 && self.usage <= 14
    }

    // Whether the key has no additional information, as draft 004 wants it.
    #[tactic(auto, unfolding(crate::specs::Key::has_no_additional_info))]
    pub fn has_no_additional_info(self) -> bool
        ensures { result ≡ has_no_additional_info self }
    {
        matches!(self.info, AdditionalInfo::Absent)
    }

    // Whether the key covers the frame type. A key whose usage is not listed covers none.
    #[tactic(auto, unfolding(crate::specs::Key::covers, crate::specs::usage::Usage::entry_at, crate::specs::usage::Usage::usage_of))]
    pub fn covers(self, frame_type: u8) -> bool
        ensures { result ≡ covers self frame_type }
    {
        entry_at(self.usage).is_ok_and(|usage| usage.family.covers_type(frame_type))
    }

    // The same question, with RANGE where the frame type is unknown or the key's usage is not listed.
    #[tactic(auto, unfolding(crate::specs::Key::coverage_of, crate::specs::usage::Usage::entry_at))]
    pub fn coverage(self, frame_type: u8) -> Result<bool, Refusal>
        ensures { result ≡ coverage_of self frame_type }
    {
        if 1 < frame_type {
            return Err(Refusal::Range);
        }
        entry_at(self.usage)?;
        Ok(self.covers(frame_type))
    }

    // Whether two keys agree in identifier and value, whatever their usage and additional information.
    #[tactic(auto, using(crate::proofs::Equal::bytes), unfolding(crate::specs::Key::same_secret))]
    pub fn same_secret(self, other: Key) -> bool
        ensures { result ≡ same_secret self other }
    {
        self.identifier == other.identifier && self.value == other.value
    }

    // Whether two keys agree in identifier, usage, value and additional information.
    #[tactic(auto, using(crate::proofs::Equal::keys))]
    pub fn same_key(self, other: Key) -> bool
        ensures { result ≡ same_key self other }
    {
        self == other
    }
}

// What the layers above may rely on of equal keys.
pub fn laws()
    ensures { SameKeyLaws }
{}
