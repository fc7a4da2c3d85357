// What the numbers of a call ask for.
ghost use Rattle.std.specs.Prelude.{true, false, not, eqb, ◌≡◌, MatchOption};
ghost use Rattle.payload_calls.specs.Asked.{is_version, is_reading, version_of};

use protocol_version::Version;

// Whether there is such a form.
pub(crate) fn is_version(form: u64) -> bool
    ensures { result ≡ is_version form }
{
    form <= 1
}

// Whether there is such a form and such a reading.
pub fn is_reading(form: u64, reading: u64) -> bool
    ensures { result ≡ is_reading form reading }
{
    if !is_version(form) {
        return false;
    }
    reading <= 1
}

// The version of a form: 0 is document 01's, and 1 that of RFC 9031.
pub fn version_of(form: u64) -> Version
    ensures { result ≡ version_of form }
{
    if form == 0 {
        return Version::Draft;
    }
    Version::Published
}

// The version of a form, if there is such a form.
pub(crate) fn known_version(form: u64) -> Option<Version>
    ensures { MatchOption result (is_version form ≡ false)
        (λ version. (is_version form ≡ true) × (version ≡ version_of form)) }
{
    if !is_version(form) {
        return None;
    }
    Some(version_of(form))
}

// The version of a form, and whether the reading is the strict one: 0 is the ordinary reading, 1 the strict one.
pub fn reading_of(form: u64, reading: u64) -> Option<(Version, bool)>
    ensures { MatchOption result (is_reading form reading ≡ false)
        (λ x. (is_reading form reading ≡ true) × (x.0 ≡ version_of form) × (x.1 ≡ not (eqb reading 0))) }
{
    if !is_reading(form, reading) {
        return None;
    }
    Some((version_of(form), reading == 1))
}
