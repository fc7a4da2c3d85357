// Reports of parameters that could not be acted on.
ghost use Rattle.std.specs.Prelude.{◌≡◌, ◌+◌, ◌≤◌, length, drop};
ghost use Rattle.byte_io.specs.Write.{Wrote};
ghost use Rattle.image.specs.Part.{puts, gets};
ghost use Rattle.object_image.specs.ErrorReports.{error_report_part, error_reports_part};

use cojp::{ErrorReport, ErrorReports, error_report_of};
use image::{number_at, put_byte, put_number};

// The bytes of a report.
const SIZE: usize = 2;

fn error_report_at(s: &[u8], at: usize) -> ErrorReport
    requires { at + 2 ≤ length s.now }
    ensures { result ≡ error_report_part.get (drop at s.now) }
{
    error_report_of(s[at], s[at + 1])
}

// Five reports from a place on.
fn five_at(s: &[u8], at: usize) -> [ErrorReport; 5]
    requires { at + 10 ≤ length s.now }
    ensures { result ≡ gets error_report_part 5 (drop at s.now) }
{
    let mut reports = [error_report_of(0, 0); 5];
    for i in 0..5 {
        reports[i] = error_report_at(s, at + SIZE * i);
    }
    reports
}

// The reports at a place.
pub fn error_reports_at(s: &[u8], at: usize) -> ErrorReports
    requires { at + 11 ≤ length s.now }
    ensures { result ≡ error_reports_part.get (drop at s.now) }
{
    ErrorReports {
        count: number_at(s, at, 1) as usize,
        reports: five_at(s, at + 1),
    }
}

fn put_error_report(dst: &mut [u8], report: ErrorReport)
    requires { 2 ≤ length dst.old }
    ensures { Wrote (error_report_part.put report) dst.old 2 dst.new }
{
    put_byte(dst, report.code);
    put_byte(&mut dst[1..], report.label);
}

// Writes five reports.
fn put_five(dst: &mut [u8], reports: &[ErrorReport; 5])
    requires { 10 ≤ length dst.old }
    ensures { Wrote (puts error_report_part reports.now) dst.old 10 dst.new }
{
    for (i, report) in reports.iter().enumerate() {
        put_error_report(&mut dst[SIZE * i..], *report);
    }
}

// Writes reports.
pub fn put_error_reports(dst: &mut [u8], faults: ErrorReports)
    requires { 11 ≤ length dst.old }
    ensures { Wrote (error_reports_part.put faults) dst.old 11 dst.new }
{
    put_number(dst, 1, faults.count as u64);
    put_five(&mut dst[1..], &faults.reports);
}
