// What a node made of a configuration.
use cojp::Disposition;
use node::Node;
use node_parameters::Dispositions;
use protocol_version::Version;
use tool_notation::put_passed;
use tool_text::output::Output;

// The parameters of the node's form; in the published one also the reports that the node holds from then on.
pub fn put_delivery(out: &mut Output, reports: Dispositions, node: Node) {
    let version = node.version;
    put_disposition(out, "accepted keys=", version, reports.keys);
    put_disposition(out, " address=", version, reports.address);
    put_disposition(out, " jrc=", version, reports.jrc);
    match version {
        Version::Draft => put_draft(out, reports),
        Version::Published => {
            put_published(out, reports);
            write!(out, " reports=");
            tool_notation::put_faults(out, node.errors);
        }
    }
}

fn put_draft(out: &mut Output, reports: Dispositions) {
    put_disposition(out, " network=", Version::Draft, reports.network);
    put_disposition(out, " prefix=", Version::Draft, reports.prefix);
    put_passed(out, reports.unknown);
}

fn put_published(out: &mut Output, reports: Dispositions) {
    put_disposition(out, " blacklist=", Version::Published, reports.blacklist);
    put_disposition(out, " rate=", Version::Published, reports.rate);
    put_passed(out, reports.unknown);
}

// What was made of a parameter, after its name.
fn put_disposition(out: &mut Output, name: &str, version: Version, report: Disposition) {
    write!(out, "{name}");
    match report {
        Disposition::Absent => write!(out, "absent"),
        Disposition::Taken => write!(out, "taken"),
        Disposition::Discarded => tool_notation::put_bad(out, version),
    }
}
