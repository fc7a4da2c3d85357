// The commands `configuration HEX`, `new-configuration HEX` and their strict ones.
use crate::parameter::{put_disposition, put_octets, put_parameter};
use cojp::{AddressParameter, Configuration, ConfigurationRead, Disposition};
use protocol_version::Version;
use tool_notation::put_passed;
use tool_text::output::{ByteString, Output};

// The object, or the refusal.
pub fn put_read(out: &mut Output, version: Version, read: ConfigurationRead) {
    match read.verdict {
        Ok(()) => put_configuration(out, version, read.configuration),
        Err(refusal) => tool_notation::put_refusal(out, refusal),
    }
}

// The parameters that both forms have, and then those of the one.
fn put_configuration(out: &mut Output, version: Version, configuration: Configuration) {
    let keys = configuration.keys;
    put_parameter(out, "accepted keys=", version, keys.disposition, |out| {
        tool_notation::put_key_set(out, keys.value);
    });
    put_address(out, version, configuration.address);
    put_octets(out, " jrc=", version, configuration.jrc);
    match version {
        Version::Draft => put_draft(out, configuration),
        Version::Published => put_published(out, configuration),
    }
}

fn put_draft(out: &mut Output, configuration: Configuration) {
    put_octets(out, " network=", Version::Draft, configuration.network);
    put_octets(out, " prefix=", Version::Draft, configuration.prefix);
    put_passed(out, configuration.unknown);
}

fn put_published(out: &mut Output, configuration: Configuration) {
    let blacklist = configuration.blacklist;
    let rate = configuration.rate;
    let version = Version::Published;
    put_parameter(out, " blacklist=", version, blacklist.disposition, |out| {
        tool_notation::put_blacklist(out, blacklist.value);
    });
    put_parameter(out, " rate=", version, rate.disposition, |out| {
        write!(out, "{}", rate.value);
    });
    put_passed(out, configuration.unknown);
    write!(out, " reports=");
    tool_notation::put_faults(out, cojp::error_reports_of(configuration));
}

// The short address and its lease, which is absent or bad as the address is.
fn put_address(out: &mut Output, version: Version, parameter: AddressParameter) {
    let disposition = parameter.disposition;
    if disposition == Disposition::Taken {
        let address = parameter.value;
        write!(out, " address={} lease=", ByteString(&address.bytes));
        if address.leased {
            write!(out, "{}", address.lease);
        } else {
            write!(out, "none");
        }
        return;
    }
    write!(out, " address=");
    put_disposition(out, version, disposition);
    write!(out, " lease=");
    put_disposition(out, version, disposition);
}
