// A parameter of an object: absent, bad, or what was taken.
use cojp::{Disposition, OctetsParameter};
use protocol_version::Version;
use tool_text::output::Output;

// The word for a parameter that was not taken; nothing for one that was.
pub fn put_disposition(out: &mut Output, version: Version, disposition: Disposition) {
    match disposition {
        Disposition::Absent => write!(out, "absent"),
        Disposition::Taken => {}
        Disposition::Discarded => tool_notation::put_bad(out, version),
    }
}

// A parameter with its name in front, as `rate=5`: `put` writes the value of one that was taken.
pub fn put_parameter<F: FnOnce(&mut Output)>(
    out: &mut Output,
    name: &str,
    version: Version,
    disposition: Disposition,
    put: F,
)
    requires { F.IsAlwaysCallable put }
{
    write!(out, "{name}");
    match disposition {
        Disposition::Taken => put(out),
        _ => put_disposition(out, version, disposition),
    }
}

// A byte string, as `network=h'cafe'`.
pub fn put_octets(out: &mut Output, name: &str, version: Version, parameter: OctetsParameter) {
    put_parameter(out, name, version, parameter.disposition, |out| {
        tool_notation::put_octets(out, parameter.value);
    });
}
