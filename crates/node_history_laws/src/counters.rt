// What holds of a node's frame counters over whole lists of calls.
ghost use Rattle.node_history_laws.specs.counters.Rising.{CountersRise};
ghost use Rattle.node_history_laws.specs.counters.Reserved.{CountersReserved};
ghost use Rattle.node_history_laws.specs.counters.Example.{CountersExample};

// From a fresh node on, sending answers no identifier, value and counter twice while the key stays in the active set.
pub fn counters_rise_law()
    ensures { CountersRise }
{
    link_key::set::laws();
    link_key_counters::laws();
    link_key_counters::history::kept_counters_law();
    node_laws::laws();
    node_laws::answers_law();
}

// A node that was stored with its next counters reserved sends none of them again after a restart.
pub fn counters_reserved_law()
    ensures { CountersReserved }
{
    counters_rise_law();
    node_laws::laws();
}

// The laws are not empty, and say no more than they can: a key that leaves and comes back counts from 0.
pub fn counters_example()
    ensures { CountersExample }
{
    counters_rise_law();
    counters_reserved_law();
}
