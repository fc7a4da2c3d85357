// The two versions of the Constrained Join Protocol, and what differs between them below the objects.
#![tactic(auto)]

ghost use Rattle.std.specs.Prelude.{◌≡◌};
ghost use Rattle.protocol_version.specs.Version.{allows_additional_info, lease_unit};

// The version that a payload or a node uses: document 004's as document 01 fixes it, or RFC 9031's (docs/RFC9031.md). A node's is fixed
// when it is made.
#[derive(Clone, Copy, PartialEq, Eq)]
pub enum Version {
    Draft,
    Published,
}

impl Version {
    // Whether a key may have additional information (RFC 9031's key_addinfo).
    pub fn allows_additional_info(self) -> bool
        ensures { result ≡ allows_additional_info self }
    {
        match self {
            Version::Draft => false,
            Version::Published => true,
        }
    }

    // The milliseconds of one unit of a lease.
    pub fn lease_unit(self) -> u64
        ensures { result ≡ lease_unit self }
    {
        match self {
            Version::Draft => 1_000,
            Version::Published => 3_600_000,
        }
    }
}
