// Two configurations joined into one, so that two updates cost one frame: each parameter from the second where it is taken there, else from
// the first. Both are of document 01's form. Nothing but values: no payload is read or written here.
#![tactic(auto)]

mod later;

ghost use Rattle.std.specs.Prelude.{◌≡◌};
ghost use Rattle.cojp_laws.specs.Largest.{LargestConfiguration};
ghost use Rattle.cojp_merge.specs.Merge.{merged, merge_answer, of_draft, outside_limits};
ghost use Rattle.cojp_merge.specs.Laws.{MergeLaws, DraftAlone};

use cojp::{Configuration, Disposition, empty_configuration, no_error_reports, no_list, no_rate};
use cojp_write::range::configuration_in_range;
use later::later;
use protocol_version::Version;
use refusal::Refusal;

// Beside a refusal stands the empty configuration.
// Kept: the definition `outside_limits` and the clause `refused` of `MergeLaws` say it of the object, and C gets its image.
#[derive(Clone, Copy)]
pub struct MergeResult {
    pub verdict: Result<(), Refusal>,
    pub configuration: Configuration,
}

fn outside_limits() -> MergeResult
    ensures { result ≡ outside_limits }
{
    MergeResult {
        verdict: Err(Refusal::Range),
        configuration: empty_configuration(),
    }
}

fn merge_parameters(first: Configuration, second: Configuration) -> Configuration
    ensures { result ≡ merged first second }
{
    let keys = later(second.keys.disposition, first.keys, second.keys);
    Configuration {
        keys,
        address: later(second.address.disposition, first.address, second.address),
        jrc: later(second.jrc.disposition, first.jrc, second.jrc),
        network: later(second.network.disposition, first.network, second.network),
        prefix: later(second.prefix.disposition, first.prefix, second.prefix),
        blacklist: no_list(Disposition::Absent),
        rate: no_rate(Disposition::Absent),
        labels: no_error_reports(),
        unknown: 0,
    }
}

// Whether a configuration is one of the draft: within the draft's limits, and no known label noted, as a reading in the published form
// does. A lease that was read there is in hours.
#[tactic(auto, unfolding(crate::specs::Merge::of_draft))]
fn is_of_draft(configuration: Configuration) -> bool
    ensures { result ≡ of_draft configuration }
{
    configuration_in_range(Version::Draft, configuration) && configuration.labels.count == 0
}

// Joins two configurations of the draft. RANGE where either was read in the published form and met a known label, or holds a taken
// parameter outside its limits, even one that the other overrides.
#[tactic(auto, unfolding(crate::specs::Merge::merge_answer))]
pub fn merge(first: Configuration, second: Configuration) -> MergeResult
    ensures { result ≡ merge_answer first second }
{
    if !is_of_draft(first) || !is_of_draft(second) {
        return outside_limits();
    }
    MergeResult {
        verdict: Ok(()),
        configuration: merge_parameters(first, second),
    }
}

// Merging is associative, the empty configuration is neutral on either side, and what is merged can be written.
pub fn laws()
    ensures { MergeLaws }
{}

// Whatever two payloads of the draft hold merges; what a payload of the published form holds does not, unless nothing of it was taken.
pub fn draft_alone_law()
    ensures { DraftAlone }
{
    cojp::reads_in_range_law();
}

// The merged configuration takes no more than 232 bytes.
pub fn merged_size_law(first: Configuration, second: Configuration)
    ensures { LargestConfiguration (merged first second) }
{
    cojp_laws::largest_configuration(merge_parameters(first, second));
}
