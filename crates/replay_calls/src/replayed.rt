// The image of what a replay tells beside the node.
ghost use Rattle.std.specs.Prelude.{◌≡◌, ◌≤◌, length};
ghost use Rattle.byte_io.specs.Write.{Wrote};
ghost use Rattle.replay_calls.specs.Replayed.{statistics_part, walk, replayed_image};

use crate::counts::put_counts;
use image::{put_head, put_number};
use object_image::put_bool;
use trace::ReplayStatistics;

const KIND: u8 = b'T';

// Writes the report of a trace.
fn put_statistics(dst: &mut [u8], report: ReplayStatistics)
    requires { 240 ≤ length dst.old }
    ensures { Wrote (statistics_part.put report) dst.old 240 dst.new }
{
    let kinds = report.kinds;
    let refusals = report.refusals;
    put_counts(dst, &kinds);
    put_counts(&mut dst[48..], &refusals);
    put_number(&mut dst[224..], 8, report.switches);
    put_number(&mut dst[232..], 8, report.longest);
}

// Stores the report and how far the walk came.
pub fn put_replayed(dst: &mut [u8], report: ReplayStatistics, stopped: bool, place: usize)
    requires { length dst.old ≡ 251 }
    ensures { dst.new ≡ replayed_image.put (walk report stopped place) }
{
    put_head(dst, KIND);
    put_statistics(&mut dst[2..], report);
    put_bool(&mut dst[242..], stopped);
    put_number(&mut dst[243..], 8, place as u64);
}
