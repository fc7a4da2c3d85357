// What holds of a node's calls: demand 1, what the layer above may rely on, when a join attempt gives up, and that the same objects do
// the same.
#![tactic(auto)]

pub mod addresses;
pub mod published;
pub mod reports;

ghost use Rattle.node_laws.specs.Answers.{AnswersSay};
ghost use Rattle.node_laws.specs.Calls.{Demand1};
ghost use Rattle.node_laws.specs.Laws.{NodeLaws, GivesUp};
ghost use Rattle.node_laws.specs.Phases.{PhaseLaws};
ghost use Rattle.node_laws.specs.Same.{AppliesAlike};

pub use addresses::{addresses_example, addresses_law};
pub use published::{clash_law, published_example};
pub use reports::{reports_example, reports_law};

// Demand 1 for the node: a refused call leaves node and lent bytes as they were, and gives the empty object.
pub fn demand1()
    ensures { Demand1 }
{}

// What the layer above may rely on.
pub fn laws()
    ensures { NodeLaws }
{
    link_key::set::laws();
    link_key_counters::laws();
    cojp::reads_in_range_law();
    cojp::error_reports_valid_law();
}

// Polled exactly when due, a join attempt with first timeout t gives up 31t after its start.
pub fn gives_up_law()
    ensures { GivesUp }
{}

// Applied to the same node, the same configurations give the same verdict and the same node.
pub fn applies_alike_law()
    ensures { AppliesAlike }
{
    link_key_counters::laws();
}

// The answers of the calls in document 01's numbers and values.
pub fn answers_law()
    ensures { AnswersSay }
{
    link_key_counters::laws();
    cojp::reads_in_range_law();
    cbor::head_laws();
    cojp_list::laws();
}

// When a node waits for its join answer: by an accepted start alone, and until an accepted join answer or giving up.
pub fn waiting_law()
    ensures { PhaseLaws }
{}
