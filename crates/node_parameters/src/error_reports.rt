// The reports that a node keeps for its next join request.
ghost use Rattle.std.specs.Prelude.{◌≡◌};
ghost use Rattle.link_key.specs.set.Lists.{all_of};
ghost use Rattle.cojp.specs.ErrorReports.{error_report_list, is_reportable, valid_error_report, valid_error_reports, error_reports_valid};

use cojp::{ErrorReport, ErrorReports};
use protocol_version::Version;

// Whether a report may name the label: one of a published configuration.
fn is_reportable(label: u8) -> bool
    ensures { result ≡ is_reportable label }
{
    matches!(label, 2 | 3 | 4 | 6 | 7)
}

fn valid_error_report(report: ErrorReport) -> bool
    ensures { result ≡ valid_error_report report }
{
    report.code <= 1 && is_reportable(report.label)
}

// The reports, as many as there are.
fn as_slice(reports: &ErrorReports) -> &[ErrorReport]
    ensures { result.now ≡ error_report_list reports.now }
{
    &reports.reports[..reports.len()]
}

// Whether each of them is one.
fn each_valid(reports: ErrorReports) -> bool
    ensures { result ≡ all_of valid_error_report (error_report_list reports) }
{
    as_slice(&reports)
        .iter()
        .all(|report| valid_error_report(*report))
}

fn valid_error_reports(reports: ErrorReports) -> bool
    ensures { result ≡ valid_error_reports reports }
{
    reports.count <= 5 && each_valid(reports)
}

// Whether a node of the form may keep these: none in the draft; else five at most, each unsupported or malformed, of a configuration's
// label.
pub fn error_reports_valid(version: Version, reports: ErrorReports) -> bool
    ensures { result ≡ error_reports_valid version reports }
{
    match version {
        Version::Draft => reports.count == 0,
        Version::Published => valid_error_reports(reports),
    }
}
