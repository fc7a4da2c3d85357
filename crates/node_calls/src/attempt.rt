// The join attempt.
ghost use Rattle.std.specs.Prelude.{◌≡◌};
ghost use Rattle.node_laws.specs.Calls.{polling};
ghost use Rattle.node_calls.specs.Calls.{Does, Starts};
ghost use Rattle.node_calls.specs.Results.{due_code};

use crate::store::store_attempt;
use capi_node::poll_in;
use image::{RANGE, number_of};
use node_attempt::Due;
use node_image::{is_node, node_in};
use refusal::{Refusal, verdict_of};

// Starts a join attempt: the join request goes to `dst`.
pub fn node_start(node: &mut [u8], time: u64, timeout: u64, dst: &mut [u8], length: &mut u64) -> u32
    ensures { Starts time timeout node.old dst.old result node.new dst.new
        length.new }
{
    node_laws::demand1();
    node_image::partial_store_law();
    if !is_node(node) {
        *length = 0;
        return RANGE;
    }
    let started = node_in(node).start(dst, time, timeout);
    *length = started.length as u64;
    store_attempt(started.verdict, started.node, node)
}

fn due_code(due: Result<Due, Refusal>) -> u32
    ensures { result ≡ due_code due }
{
    match due {
        Err(_) => 0,
        Ok(Due::NotYet) => 1,
        Ok(Due::SendAgain) => 2,
        Ok(Due::GaveUp) => 3,
    }
}

// What is due in the join attempt: 1 nothing yet, 2 sending again, 3 the node gave up.
pub fn node_poll(node: &mut [u8], time: u64, due: &mut u32) -> u32
    ensures { Does (polling time) node.old result node.new due.new }
{
    node_laws::demand1();
    let step = poll_in(node, time);
    *due = due_code(step);
    number_of(verdict_of(step))
}
