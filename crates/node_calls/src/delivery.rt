// Configurations handed to a node.
ghost use Rattle.std.specs.Prelude.{◌≡◌, length, replicate};
ghost use Rattle.refusal.specs.Verdict.{verdict_number};
ghost use Rattle.image.specs.Effects.{on_accept};
ghost use Rattle.node_attempt.specs.declared.delivery.Delivery.TheVariants as delivery;
ghost use Rattle.node_image.specs.Answers.{dispositions_image};
ghost use Rattle.node_image.specs.Node.{node_image};
ghost use Rattle.node_laws.specs.Calls.{delivering};
ghost use Rattle.node_calls.specs.Calls.{Changes};

use crate::store::{store_dispositions, store_node};
use image::{RANGE, clear};
use node::{Delivery, DeliveryResult};
use node_image::{is_node, node_in};

// The reports as a result, and the node after it.
fn store_delivery(done: DeliveryResult, node: &mut [u8], reports: &mut [u8]) -> u32
    requires { (length node.old ≡ 878) × (length reports.old ≡ 17) }
    ensures number { result ≡ verdict_number done.verdict }
    ensures node { node.new ≡ on_accept done.verdict node.old (node_image.put done.node) }
    ensures reports { reports.new
        ≡ on_accept done.verdict (replicate 17 0) (dispositions_image.put done.dispositions) }
{
    store_dispositions(done.verdict, done.dispositions, reports);
    store_node(done.verdict, done.node, node)
}

// A payload with a configuration, taken as what it is delivered as.
fn deliver(
    node: &mut [u8],
    delivery: Delivery,
    time: u64,
    payload: &[u8],
    reports: &mut [u8],
) -> u32
    ensures { Changes 17 (delivering delivery time payload.now) node.old reports.old result node.new reports.new }
{
    if reports.len() != 17 {
        return RANGE;
    }
    if !is_node(node) {
        clear(reports);
        return RANGE;
    }
    let held = node_in(node);
    match delivery {
        Delivery::JoinAnswer => store_delivery(held.join_answer(time, payload), node, reports),
        Delivery::Update => store_delivery(held.update(time, payload), node, reports),
    }
}

// A join answer.
pub fn node_answer(node: &mut [u8], time: u64, payload: &[u8], reports: &mut [u8]) -> u32
    ensures { Changes 17 (delivering delivery.JoinAnswer time payload.now) node.old reports.old result
        node.new reports.new }
{
    deliver(node, Delivery::JoinAnswer, time, payload, reports)
}

// A parameter update.
pub fn node_update(node: &mut [u8], time: u64, payload: &[u8], reports: &mut [u8]) -> u32
    ensures { Changes 17 (delivering delivery.Update time payload.now) node.old reports.old result
        node.new reports.new }
{
    deliver(node, Delivery::Update, time, payload, reports)
}
