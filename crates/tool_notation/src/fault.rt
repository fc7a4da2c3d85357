// Reports of parameters that could not be acted on (RFC 9031).
use crate::list::put_list;
use cojp::ErrorReports;
use tool_text::first;
use tool_text::output::Output;

// Reports, as [1/3,1/4]: the code of the error and the parameter's label.
pub fn put_faults(out: &mut Output, reports: ErrorReports) {
    put_list(out, first(&reports.reports, reports.count), |out, report| {
        write!(out, "{}/{}", report.code, report.label);
    });
}
