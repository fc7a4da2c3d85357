// Laws of whole lists of calls from C, and of what they hand back.
#![tactic(auto)]

ghost use Rattle.pothatch_laws.specs.NodeExample.{NodeExample};
ghost use Rattle.pothatch_laws.specs.Ledger.{LedgerRuns};
ghost use Rattle.pothatch_laws.specs.LedgerHistory.{LedgerHistories, LedgerHistoryExample};
ghost use Rattle.pothatch_laws.specs.Node.{NodeRuns};
ghost use Rattle.pothatch_laws.specs.ProxyExample.{ProxyExample};
ghost use Rattle.pothatch_laws.specs.Proxy.{ProxyRuns};
ghost use Rattle.pothatch_laws.specs.Results.{ResultsFit};
ghost use Rattle.pothatch_laws.specs.Serial.{SerialRuns};

// From an opening on, and from any image on, the ledger's calls from C answer as its own do, and the struct holds the ledger's image.
pub fn ledger_runs_law()
    ensures { LedgerRuns }
{
    address_ledger_laws::demand1();
    state_image::laws();
}

// Request 1's laws in C: whatever counts and summaries stand in the structs, no two boards hold one address, held plus free is the size of
// the range, and a board that holds an address gets the same again.
pub fn ledger_histories_law()
    ensures { LedgerHistories }
{
    address_ledger_laws::demand1();
    address_ledger_laws::held_and_free_law();
    address_ledger_laws::one_holder_law();
    address_ledger_laws::same_address_law();
}

// Two boards on two addresses, played in C with wrong counts and a wrong summary.
pub fn ledger_history_example()
    ensures { LedgerHistoryExample }
{}

// From a reset on, and from any image on, the calls from C on a payload in parts answer as those on an arrival do, and the struct holds
// the arrival's image.
pub fn serial_runs_law()
    ensures { SerialRuns }
{
    serial_calls::laws();
}

// From a make on, and from any image on, the calls of a node from C answer as the node's own do, and the struct holds the node's image.
pub fn node_runs_law()
    ensures { NodeRuns }
{
    node_laws::demand1();
    node_image::laws();
    node_call_laws::calls_valid_law();
}

// A board that C makes, starts, joins and sends with: what it is told, and what stands in the struct.
pub fn node_example()
    ensures { NodeExample }
{
    node_runs_law();
}

// From a make on, and from any image on, the calls of a join proxy from C answer as its own do, and the struct holds the proxy's image.
// Between two settings of a key no number is sealed twice.
pub fn proxy_runs_law()
    ensures { ProxyRuns }
{
    refusal::number_range_law();
    join_proxy::laws();
    state_image::laws();
}

// A proxy that C makes and issues bodies with: what it is told, and what stands in the struct.
pub fn proxy_example()
    ensures { ProxyExample }
{
    proxy_runs_law();
}

// What a call from C hands back in a struct is stored without loss.
pub fn results_valid_law()
    ensures { ResultsFit }
{
    node_call_laws::calls_valid_law();
    trace::records_contiguous_law();
    aes_ccm::laws();
    object_image::laws();
    node_image::laws();
    state_image::laws();
    serial_calls::laws();
}
