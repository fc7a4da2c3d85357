// Laws of a network whose nodes stand in structs and are driven by calls from C.
#![tactic(auto)]

ghost use Rattle.network_call_laws.specs.Counters.{CountersRiseInC, CountersInCExample};
ghost use Rattle.network_call_laws.specs.Line.{LineInC};
ghost use Rattle.network_call_laws.specs.Network.{NetworkRuns};
ghost use Rattle.network_call_laws.specs.Playing.{EventsPlay};
ghost use Rattle.network_call_laws.specs.Rekey.{Demand3InC};

// From any images on, turns and calls from C answer as they do in the network, and the structs hold the nodes' images.
pub fn network_runs_law()
    ensures { NetworkRuns }
{
    refusal::number_range_law();
    link_key::laws();
    key_image::laws();
    node_image::laws();
    node_call_laws::calls_valid_law();
    pothatch_laws::node_runs_law();
}

// Demand 3 in C: before the border router's board accepts a new key set that waits at all others, no board sends under it at any moment;
// h rounds after it, every board at most h hops away has followed.
pub fn rekey_law()
    ensures { Demand3InC }
{
    refusal::number_range_law();
    link_key::laws();
    key_image::laws();
    node_image::laws();
    node_call_laws::calls_valid_law();
    pothatch_laws::node_runs_law();
    network::rekey_law();
}

// From a fresh node on, a board hands back no key with a counter twice while the key stays active, whatever calls come.
pub fn counters_rise_law()
    ensures { CountersRiseInC }
{
    refusal::number_range_law();
    node_image::laws();
    node_call_laws::calls_valid_law();
    pothatch_laws::node_runs_law();
    node_history_laws::counters::counters_rise_law();
}

// A border router's board that joins, sends, takes an update and sends again: counters 0 and 1.
pub fn counters_example()
    ensures { CountersInCExample }
{
    refusal::number_range_law();
    node_image::laws();
    node_call_laws::calls_valid_law();
    pothatch_laws::node_runs_law();
    node_history_laws::counters::counters_example();
}

// The laws are not empty: a program can play every list of events, whatever stands in the structs.
pub fn events_law()
    ensures { EventsPlay }
{}

// Demand 3 in C is not empty: a program rekeys a line of three boards, and the far one follows after two rounds and not after one.
pub fn line_rekey_example()
    ensures { LineInC }
{
    network_runs_law();
    rekey_law();
    network::rekey_example();
}
