// The images of join requests and configurations, and of the parts that they and a node are made of: reports, byte strings, short
// addresses, lists, join rates, faults. A part is put at the front of a lent slice, and got from a place of one.
#![tactic(auto)]

mod address;
mod codes;
mod configuration;
mod error_reports;
mod list;
mod octets;
mod rate;
mod request;

ghost use Rattle.object_image.specs.Laws.{ObjectImages};

pub use address::{
    address_parameter_at, is_address_parameter, is_short_address, put_address_parameter,
    put_short_address, short_address_at,
};
pub use codes::{bool_at, disposition_at, is_bool, is_disposition, put_bool, put_disposition};
pub use configuration::{configuration_in, is_configuration, put_configuration};
pub use error_reports::{error_reports_at, put_error_reports};
pub use list::{is_list_parameter, list_at, list_parameter_at, put_list, put_list_parameter};
pub use octets::{
    is_octets_parameter, octets_at, octets_parameter_at, put_octets, put_octets_parameter,
};
pub use rate::{is_rate_parameter, put_rate_parameter, rate_parameter_at};
pub use request::{is_request, put_request, request_in};

// What was stored is loaded as it was, and there is one image for each value.
pub fn laws()
    ensures { ObjectImages }
{
    key_image::laws();
}
