// Additional information of a key is read: a byte string of 4 or of 8 bytes.
ghost use Rattle.std.specs.Prelude.{◌≡◌, ◌+◌, ◌≤◌, length, take, drop};
ghost use Rattle.link_key.specs.AdditionalInfo.{additional_info_in};
ghost use Rattle.cojp_key_set.specs.Groups.{additional_info_answer};

use link_key::AdditionalInfo;

// The additional information that `len` bytes from a place on are, if they are 4 or 8.
pub(crate) fn additional_info_at(s: &[u8], at: usize, len: usize) -> Option<AdditionalInfo>
    requires { at + len ≤ length s.now }
    ensures { result ≡ additional_info_answer (additional_info_in (take len (drop at s.now))) }
{
    match &s[at..at + len] {
        &[a, b, c, d] => Some(AdditionalInfo::Four(a, b, c, d)),
        &[a, b, c, d, e, f, g, h] => Some(AdditionalInfo::Eight(a, b, c, d, e, f, g, h)),
        _ => None,
    }
}
