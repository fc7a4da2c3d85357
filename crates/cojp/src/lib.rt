// The objects of the Constrained Join Protocol (document 004, 9.3), join requests and configurations: what they are, what their payloads
// mean, and how the values of their parameters are read.
#![tactic(auto)]

pub mod address;
pub mod configuration;
pub mod copy;
pub mod disposition;
pub mod error_report;
pub mod key_set;
pub mod list;
pub mod members;
pub mod octets;
pub mod parameter;
pub mod rate;
pub mod reported;
pub mod request;
pub mod walk;

ghost use Rattle.cojp.specs.Bytes.{EndUnique};
ghost use Rattle.cojp.specs.Examples.{MarkedExamples};
ghost use Rattle.cojp.specs.InRange.{ReadsInRange, ErrorReportsValid};
ghost use Rattle.cojp.specs.PublishedExamples.{PublishedExamples};
ghost use Rattle.cojp.specs.Laws.{ReadersDemand1, StrictReaders};

pub use address::{AddressParameter, ShortAddress, no_address, read_address};
pub use configuration::{Configuration, ConfigurationRead, empty_configuration};
pub use copy::copied;
pub use disposition::{Disposition, is_taken};
pub use error_report::{ErrorReport, ErrorReports, error_report_of, no_error_reports};
pub use key_set::{KeysParameter, KeysRead, no_key_set};
pub use list::{ItemList, ListParameter, ListRead, no_list};
pub use members::{Member, member_at};
pub use octets::{Octets, OctetsParameter, no_octets, read_octets};
pub use parameter::{Parameter, parameter_of};
pub use rate::{RateParameter, no_rate, read_rate};
pub use reported::error_reports_of;
pub use request::{JoinRequest, RequestRead, RequestState, empty_request, is_owing};
pub use walk::LabelStatus;

// Document 01's marked examples hold of the definitions.
pub fn marked_examples()
    ensures { MarkedExamples }
{}

// Payloads of the published form, as docs/RFC9031.md reads them.
pub fn published_examples()
    ensures { PublishedExamples }
{}

// What the reader of configurations takes is in range.
pub fn reads_in_range_law()
    ensures { ReadsInRange }
{
    link_key::set::laws();
    cbor::laws();
}

// The reports of a configuration that was read may be made.
pub fn error_reports_valid_law()
    ensures { ErrorReportsValid }
{}

// What a reader says of the place after a value is so of one place only.
pub fn end_unique_law()
    ensures { EndUnique }
{}

// Demand 1 for the readers: a refusal comes with the empty object.
pub fn readers_demand1_law()
    ensures { ReadersDemand1 }
{}

// The strict readings are LOOSE exactly where the scan meets a longer head, and else the ordinary ones.
pub fn strict_readers_law()
    ensures { StrictReaders }
{
    cbor::laws();
}
