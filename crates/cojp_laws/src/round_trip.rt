// What is written reads back as the same object.
ghost use Rattle.cojp_laws.specs.RoundTrip.{RequestRoundTrip, ConfigurationRoundTrip, RequestInPlace, ConfigurationInPlace};

use cojp::{Configuration, JoinRequest};

// What is written of a join request in either form reads back as the same request, read strictly or not.
pub fn request_round_trip(q: JoinRequest)
    ensures { RequestRoundTrip q }
{
    cbor::laws();
    cbor::head_laws();
    cojp_list::laws();
}

// What is written of a configuration in either form reads back as the same configuration, read strictly or not.
pub fn configuration_round_trip(c: Configuration)
    ensures { ConfigurationRoundTrip c }
{
    cbor::laws();
    cbor::head_laws();
    cojp_list::laws();
    link_key::set::laws();
}

// The same of the first bytes of the destination, as many as were written, whatever stood in it.
pub fn request_in_place(q: JoinRequest)
    ensures { RequestInPlace q }
{
    request_round_trip(q);
}

pub fn configuration_in_place(c: Configuration)
    ensures { ConfigurationInPlace c }
{
    configuration_round_trip(c);
}
