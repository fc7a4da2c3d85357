// The reports that a node keeps, as the unsupported configuration of its join request (RFC 9031).
ghost use Rattle.std.specs.Prelude.{false, [], ◌∷◌, ◌≡◌};
ghost use Rattle.byte_io.specs.Write.{Did, emit};
ghost use Rattle.cojp.specs.ErrorReports.{error_report_list};
ghost use Rattle.cojp.specs.Lists.{picked, written};
ghost use Rattle.cojp_list.specs.Gathered.{GatheredAs};
ghost use Rattle.cojp_list.specs.Listed.{members_of, listed_in};

use crate::error_entries::write_entry;
use crate::error_entry::Integer;
use crate::list::Gathered;
use cojp::{Disposition, ErrorReport, ErrorReports, ListParameter, no_list};
use refusal::Refusal;

// A number as an integer.
fn unsigned(number: u8) -> Integer
    ensures { result ≡ record { negative = false; number = number } }
{
    Integer {
        negative: false,
        number: number as u64,
    }
}

// Writes a report: code, label, null.
fn write_report(dst: &mut [u8], report: ErrorReport) -> Result<usize, Refusal>
    ensures { Did (emit (written (members_of (report ∷ [])))) dst.old result dst.new }
{
    let code = unsigned(report.code);
    let label = unsigned(report.label);
    write_entry(dst, code, label)
}

// Writes the reports one after the other.
fn gather_reports(reports: ErrorReports, dst: &mut [u8]) -> Option<Gathered>
    ensures { GatheredAs (picked (members_of (error_report_list reports))) dst.old result dst.new }
{
    cbor::head_laws();
    let mut len = 0;
    let mut members = 0;
    for report in &reports.reports[..reports.len()] {
        let Ok(k) = write_report(&mut dst[len..], *report) else {
            return None;
        };
        len += k;
        members += 3;
    }
    Some(Gathered { members, len })
}

// The parameter that lists the reports: code, label and null for each; absent where there are none.
pub fn unsupported_of(reports: ErrorReports) -> ListParameter
    ensures { result ≡ listed_in reports }
{
    cbor::head_laws();
    if reports.len() == 0 {
        return no_list(Disposition::Absent);
    }
    let mut bytes = [0u8; 253];
    match gather_reports(reports, &mut bytes) {
        Some(kept) => ListParameter {
            value: kept.list(bytes),
            disposition: Disposition::Taken,
        },
        None => no_list(Disposition::Absent),
    }
}
