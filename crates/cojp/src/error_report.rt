// Reports of parameters that could not be acted on (RFC 9031), in the order in which they came.
ghost use Rattle.std.specs.Prelude.{◌≤◌, ◌≡◌, length};
ghost use Rattle.cojp.specs.ErrorReports.{error_report_of, no_error_reports, error_report_list, added};

// RFC 9031's code of the error (0 unsupported, 1 malformed), and the parameter's label.
#[derive(Clone, Copy)]
pub struct ErrorReport {
    pub code: u8,
    pub label: u8,
}

// The first `count` of them; an object has at most five parameters.
// Kept: no heap; C stores it in its images at fixed places (crates/object_image).
#[derive(Clone, Copy)]
pub struct ErrorReports {
    pub count: usize,
    pub reports: [ErrorReport; 5],
}

// One report.
pub fn error_report_of(code: u8, label: u8) -> ErrorReport
    ensures { result ≡ error_report_of code label }
{
    ErrorReport { code, label }
}

// None.
pub fn no_error_reports() -> ErrorReports
    ensures { result ≡ no_error_reports }
{
    ErrorReports {
        count: 0,
        reports: [error_report_of(0, 0); 5],
    }
}

impl ErrorReports {
    // How many there are; a count over five is five.
    pub fn len(self) -> usize
        ensures exact { result ≡ length (error_report_list self) }
        ensures few { result ≤ 5 }
    {
        self.count.min(5)
    }

    // One more at the end; where there are five already nothing is added.
    pub fn add(self, code: u8, label: u8) -> ErrorReports
        ensures { result ≡ added self code label }
    {
        let mut out = self;
        if out.count < 5 {
            out.reports[out.count] = error_report_of(code, label);
            out.count += 1;
        }
        out
    }
}
