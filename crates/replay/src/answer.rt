// A replay on one line.
use crate::LONGEST;
use tool_node::put_node;
use tool_text::line_error::{LineError, put_line_error};
use tool_text::output::Output;
use trace::walker::replay;
use trace::{ReplayResult, ReplayStatistics};

// Replays the trace and writes its answer; one that is too long is not replayed.
pub fn put_trace(out: &mut Output, trace: &[u8]) {
    if LONGEST < trace.len() {
        return put_line_error(out, LineError::Long);
    }
    put_replayed(out, replay(trace));
}

fn put_replayed(out: &mut Output, replayed: ReplayResult) {
    if replayed.complete {
        write!(out, "complete");
    } else {
        write!(out, "stopped {}", replayed.offset);
    }
    put_statistics(out, replayed.statistics);
    if !replayed.made {
        return write!(out, " node=none");
    }
    out.byte(b' ');
    put_node(out, replayed.node);
}

fn put_statistics(out: &mut Output, statistics: ReplayStatistics) {
    write!(out, " records=");
    put_kinds(out, statistics.kinds);
    write!(out, " refusals=[");
    put_refusals(out, statistics.refusals);
    write!(
        out,
        "] switches={} wait={}",
        statistics.switches, statistics.longest
    );
}

// The records of kinds 1 to 6, with strokes between them.
fn put_kinds(out: &mut Output, kinds: [u64; 6]) {
    for (i, count) in kinds.iter().enumerate() {
        if 0 < i {
            out.byte(b'/');
        }
        write!(out, "{count}");
    }
}

// The refusals that occurred, as NUMBER:COUNT, with commas between them.
fn put_refusals(out: &mut Output, refusals: [u64; 22]) {
    let occurred = (1..).zip(refusals.iter()).filter(|(_, count)| **count != 0);
    for (i, (number, count)) in occurred.enumerate() {
        if 0 < i {
            out.byte(b',');
        }
        write!(out, "{number}:{count}");
    }
}
