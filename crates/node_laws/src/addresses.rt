// FFFE and FFFF at a node (document 02, request 2).
ghost use Rattle.node_laws.specs.Addresses.{NodeAddresses, AddressesExample};

// Whatever calls a valid node is handed, it comes to hold neither; handed in with one it answers RANGE to every call.
pub fn addresses_law()
    ensures { NodeAddresses }
{
    short_address::laws();
    crate::laws();
    crate::answers_law();
}

// A node's address stays where a join answer or an update brings one of the two.
pub fn addresses_example()
    ensures { AddressesExample }
{}
