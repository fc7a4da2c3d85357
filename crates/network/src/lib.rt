// A network of nodes: what is proved of turns, and how a rekey goes through.
#![tactic(auto)]

ghost use Rattle.network.specs.AmidUpdates.{RekeyAmidUpdates};
ghost use Rattle.network.specs.AmidUpdatesExample.{AmidUpdatesExample};
ghost use Rattle.network.specs.Answers.{EveryTurnAnswers};
ghost use Rattle.network.specs.Demand1.{TurnDemand1};
ghost use Rattle.network.specs.Demand3.{Demand3};
ghost use Rattle.network.specs.PartialRekey.{SomeKeyUsable, RekeyUnder, PartialRekey};
ghost use Rattle.network.specs.PartialRekeyExample.{PartialRekeyExample};
ghost use Rattle.network.specs.PublishedRekeyExample.{PublishedRekeyExample};
ghost use Rattle.network.specs.RekeyExample.{RekeyExample};
ghost use Rattle.network.specs.WideRekeyExample.{WideRekeyExample};

// Demand 1 for a turn: refused by the sender it leaves both nodes, refused by the receiver or failed it leaves the receiver.
pub fn demand1()
    ensures { TurnDemand1 }
{
    node_laws::laws();
}

// The claim beside demand 3: its lists may also have updates and join answers that are accepted and take no key set. A clashing update of
// the published form is one.
pub fn rekey_amid_updates_law()
    ensures { RekeyAmidUpdates }
{
    node_laws::laws();
}

// The same claim with less supposed: one covering key of the new set, not used up, is enough for each node that has the set active.
pub fn rekey_while_usable_law()
    ensures { RekeyUnder SomeKeyUsable }
{
    rekey_amid_updates_law();
}

// Buildings where some unit missed the keys: the rekey reaches the nodes that had the new set along nodes that had it, and a node that
// lacked it, with none pending, keeps its active set.
pub fn partial_rekey_law()
    ensures { PartialRekey }
{
    node_laws::laws();
    rekey_while_usable_law();
}

// Demand 3: before the border router accepts a new key set that waits at all other nodes, nobody sends under it;
// h rounds after it, every node at most h hops away has followed.
pub fn rekey_law()
    ensures { Demand3 }
{
    partial_rekey_law();
}

// Demand 3 is not empty: a line of three nodes is rekeyed, and its far node follows after two rounds and not after one.
pub fn rekey_example()
    ensures { RekeyExample }
{
    rekey_law();
}

// Nor with more in it: sets of several keys for different frames, a join answer that brings the new set, and a second list with starts,
// polls and refused deliveries.
pub fn wide_rekey_example()
    ensures { WideRekeyExample }
{
    rekey_law();
}

// The claim beside demand 3 is not empty: the far node of the line accepts a clashing update before and after the step, and follows.
pub fn amid_updates_example()
    ensures { AmidUpdatesExample }
{
    rekey_amid_updates_law();
}

// Nor is it in the published form: the border router takes a key with additional information from a payload whose JRC address is bad, which
// it reports, and the far node follows.
pub fn published_rekey_example()
    ensures { PublishedRekeyExample }
{
    rekey_law();
}

// The claim with sleepers is not empty: in a building of seven nodes one sleeps before another that waits, and one has another set pending.
pub fn partial_rekey_example()
    ensures { PartialRekeyExample }
{
    partial_rekey_law();
}

// A turn's answer in document 01's numbers and values.
pub fn turn_answers_law()
    ensures { EveryTurnAnswers }
{
    node_laws::answers_law();
}
