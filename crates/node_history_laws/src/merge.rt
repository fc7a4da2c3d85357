// Two updates joined into one do to a node what the two did one after the other.
ghost use Rattle.node_history_laws.specs.merge.Merged.{MergedApplies, MergedDelivers};
ghost use Rattle.node_history_laws.specs.merge.Example.{AcceptedPair, RefusedPair};

use cojp::Configuration;

// Applied to a node at one time: where the first and then the second are accepted, the merged one is, and leaves the same node, but for a
// border router's frame counters.
pub fn merged_applies_law()
    ensures { MergedApplies }
{
    link_key_counters::laws();
}

// The same of payloads at a node of the draft: any two that read as these configurations, and the one that is written of the merged one.
pub fn merged_delivers(first: Configuration, second: Configuration)
    ensures { MergedDelivers first second }
{
    merged_applies_law();
    let both = cojp_merge::merge(first, second);
    let configuration = both.configuration;
    cojp_laws::largest_configuration(configuration);
    cojp_laws::draft_written(configuration);
    cojp_laws::configuration_round_trip(configuration);
    cojp_merge::laws();
    cojp::reads_in_range_law();
}

// A pair of which both are accepted, so that the law speaks of something.
pub fn accepted_pair_example()
    ensures { AcceptedPair }
{}

// A pair of which the first is refused is outside: the merged one is accepted all the same.
pub fn refused_pair_example()
    ensures { RefusedPair }
{}
