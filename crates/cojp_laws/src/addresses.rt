// FFFE and FFFF in the objects (document 02, request 2).
ghost use Rattle.cojp_laws.specs.Addresses.{ObjectAddresses};

// No configuration that is read or written holds FFFE or FFFF as its address.
pub fn addresses_law()
    ensures { ObjectAddresses }
{
    short_address::laws();
    cojp::reads_in_range_law();
    cojp::readers_demand1_law();
    cojp::strict_readers_law();
}
