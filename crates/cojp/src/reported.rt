// What a configuration of the published form is answered with.
ghost use Rattle.std.specs.Prelude.{◌≡◌, cond};
ghost use Rattle.cojp.specs.ErrorReports.{no_error_reports, error_report_list, added};
ghost use Rattle.cojp.specs.Reported.{is_bad, bad_in, bad_at, reports_on, error_reports_of};

use crate::configuration::Configuration;
use crate::disposition::Disposition;
use crate::error_report::{ErrorReport, ErrorReports, no_error_reports};
use crate::parameter::{Parameter, parameter_of};
use protocol_version::Version;

// Whether a parameter was in the payload and bad.
fn is_bad(report: Disposition) -> bool
    ensures { result ≡ is_bad report }
{
    report == Disposition::Discarded
}

// Which parameters of a published configuration were bad.
#[derive(Clone, Copy)]
struct Bad {
    keys: bool,
    address: bool,
    jrc: bool,
    blacklist: bool,
    rate: bool,
}

// Which were.
fn bad_in(c: Configuration) -> Bad
    ensures { result ≡ bad_in c }
{
    Bad {
        keys: is_bad(c.keys.disposition),
        address: is_bad(c.address.disposition),
        jrc: is_bad(c.jrc.disposition),
        blacklist: is_bad(c.blacklist.disposition),
        rate: is_bad(c.rate.disposition),
    }
}

// Whether what a label names was bad.
fn bad_at(bad: Bad, label: u8) -> bool
    ensures { result ≡ bad_at bad label }
{
    let name = parameter_of(Version::Published, label as u64);
    match name {
        Parameter::Keys => bad.keys,
        Parameter::Address => bad.address,
        Parameter::Jrc => bad.jrc,
        Parameter::Network => false,
        Parameter::Prefix => false,
        Parameter::Blacklist => bad.blacklist,
        Parameter::Rate => bad.rate,
        Parameter::Unknown => false,
    }
}

// A report for each bad parameter, in payload order; a configuration that was read in the draft's form has none.
pub fn error_reports_of(c: Configuration) -> ErrorReports
    ensures { result ≡ error_reports_of c }
{
    c.labels.bad_of(bad_in(c))
}

impl ErrorReport {
    // The reports with this one after them, if its parameter was bad.
    fn reported(self, bad: Bad, before: ErrorReports) -> ErrorReports
        ensures { result ≡ cond (bad_at bad self.label) (added before self.code self.label) before }
    {
        if bad_at(bad, self.label) {
            return before.add(self.code, self.label);
        }
        before
    }
}

impl ErrorReports {
    // Those whose parameter was bad.
    fn bad_of(self, bad: Bad) -> ErrorReports
        ensures { result ≡ reports_on bad no_error_reports (error_report_list self) }
    {
        let mut out = no_error_reports();
        for report in &self.reports[..self.len()] {
            out = report.reported(bad, out);
        }
        out
    }
}
