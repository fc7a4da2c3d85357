// The command `show I`: a node on one line.
#![tactic(auto)]

use link_key_counters::CountedSet;
use node::Node;
use node_attempt::{Attempt, Phase};
use node_parameters::{HeldAddress, HeldList, HeldOctets, HeldRate};
use protocol_version::Version;
use tool_text::output::{ByteString, Output};

// Writes what the node is and holds.
pub fn put_node(out: &mut Output, node: Node) {
    put_version(out, node.version);
    write!(out, "role={}", node.role);
    put_attempt(out, node.attempt);
    put_key_set(out, " active=", node.sets.active);
    put_key_set(out, " pending=", node.sets.pending);
    put_address(out, node.address);
    put_octets(out, " jrc=", node.jrc);
    put_octets(out, " network=", node.network);
    match node.version {
        Version::Draft => put_octets(out, " prefix=", node.prefix),
        Version::Published => put_published(out, node),
    }
}

// A node of the draft is shown without its form.
fn put_version(out: &mut Output, version: Version) {
    match version {
        Version::Draft => {}
        Version::Published => write!(out, "form=new "),
    }
}

// What a node of the published form alone holds.
fn put_published(out: &mut Output, node: Node) {
    put_blacklist(out, node.blacklist);
    put_rate(out, node.rate);
    write!(out, " reports=");
    tool_notation::put_faults(out, node.errors);
}

fn put_blacklist(out: &mut Output, blacklist: HeldList) {
    write!(out, " blacklist=");
    if !blacklist.held {
        return write!(out, "none");
    }
    tool_notation::put_blacklist(out, blacklist.value);
}

fn put_rate(out: &mut Output, rate: HeldRate) {
    if !rate.held {
        return write!(out, " rate=none");
    }
    write!(out, " rate={}", rate.value);
}

fn put_attempt(out: &mut Output, attempt: Attempt) {
    write!(
        out,
        " phase={} clock={} sent={}",
        name_of(attempt.phase),
        attempt.clock,
        attempt.sent
    );
    write!(out, " timeout={} count={}", attempt.timeout, attempt.count);
}

fn name_of(phase: Phase) -> &'static str {
    match phase {
        Phase::Idle => "idle",
        Phase::Waiting => "waiting",
        Phase::Joined => "joined",
        Phase::GaveUp => "gave-up",
    }
}

fn put_key_set(out: &mut Output, name: &str, held: CountedSet) {
    write!(out, "{name}");
    if held.set.count == 0 {
        return write!(out, "none");
    }
    put_counted(out, held);
}

// The keys, each with its counter, as [KEY#COUNTER,KEY#COUNTER].
fn put_counted(out: &mut Output, held: CountedSet) {
    out.byte(b'[');
    let pairs = held.set.keys.iter().zip(held.counters.iter());
    for (i, (key, counter)) in pairs.take(held.set.count).enumerate() {
        if 0 < i {
            out.byte(b',');
        }
        tool_notation::put_key(out, *key);
        write!(out, "#{counter}");
    }
    out.byte(b']');
}

// The short address, its lease and its time of receipt.
fn put_address(out: &mut Output, address: HeldAddress) {
    if !address.held {
        return write!(out, " address=none lease=none received=none");
    }
    let value = address.value;
    write!(out, " address={}", ByteString(&value.bytes));
    put_lease(out, value.leased, value.lease);
    write!(out, " received={}", address.received);
}

fn put_lease(out: &mut Output, leased: bool, lease: u64) {
    if !leased {
        return write!(out, " lease=none");
    }
    write!(out, " lease={lease}");
}

fn put_octets(out: &mut Output, name: &str, octets: HeldOctets) {
    write!(out, "{name}");
    if !octets.held {
        return write!(out, "none");
    }
    tool_notation::put_octets(out, octets.value);
}
