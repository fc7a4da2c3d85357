// Nodes. Codes are wide numbers, so that C truncates none; a number that does not fit a byte is an undefined code.
ghost use Rattle.node_calls.specs.Calls.{Makes, Starts, Does, Changes, Tells, Gives};
ghost use Rattle.node_attempt.specs.declared.delivery.Delivery.TheVariants.{JoinAnswer, Update};
ghost use Rattle.node_laws.specs.Calls.{polling, delivering, asking, sending, receiving, reporting};
ghost use Rattle.pothatch.specs.Wide.{code_of, identifier_of};

// Makes a node, idle.
#[unsafe(no_mangle)]
pub extern "C" fn pothatch_node_make(
    form: u64,
    role: u64,
    has_network: u64,
    network: &[u8],
    node: &mut [u8],
) -> u32
    ensures { Makes (code_of form) (code_of role) (code_of has_network) network.now node.old result
        node.new }
{
    pothatch::nodes::pothatch_node_make(form, role, has_network, network, node)
}

// Starts a join attempt: the join request goes to `dst`.
#[unsafe(no_mangle)]
pub extern "C" fn pothatch_node_start(
    node: &mut [u8],
    time: u64,
    timeout: u64,
    dst: &mut [u8],
    length: &mut u64,
) -> u32
    ensures { Starts time timeout node.old dst.old result node.new dst.new
        length.new }
{
    pothatch::nodes::pothatch_node_start(node, time, timeout, dst, length)
}

// What is due in the join attempt.
#[unsafe(no_mangle)]
pub extern "C" fn pothatch_node_poll(node: &mut [u8], time: u64, due: &mut u32) -> u32
    ensures { Does (polling time) node.old result node.new due.new }
{
    pothatch::nodes::pothatch_node_poll(node, time, due)
}

// A join answer.
#[unsafe(no_mangle)]
pub extern "C" fn pothatch_node_answer(
    node: &mut [u8],
    time: u64,
    payload: &[u8],
    reports: &mut [u8],
) -> u32
    ensures { Changes 17 (delivering JoinAnswer time payload.now) node.old reports.old result
        node.new reports.new }
{
    pothatch::nodes::pothatch_node_answer(node, time, payload, reports)
}

// A parameter update.
#[unsafe(no_mangle)]
pub extern "C" fn pothatch_node_update(
    node: &mut [u8],
    time: u64,
    payload: &[u8],
    reports: &mut [u8],
) -> u32
    ensures { Changes 17 (delivering Update time payload.now) node.old reports.old result
        node.new reports.new }
{
    pothatch::nodes::pothatch_node_update(node, time, payload, reports)
}

// Whether the short address holds.
#[unsafe(no_mangle)]
pub extern "C" fn pothatch_node_holds(node: &[u8], time: u64, holds: &mut u32) -> u32
    ensures { Tells (asking time) node.now result holds.new }
{
    pothatch::nodes::pothatch_node_holds(node, time, holds)
}

// The key to send a frame with, and its counter.
#[unsafe(no_mangle)]
pub extern "C" fn pothatch_node_send(node: &mut [u8], frame_type: u64, key: &mut [u8]) -> u32
    ensures { Changes 33 (sending (code_of frame_type)) node.old key.old result node.new
        key.new }
{
    pothatch::nodes::pothatch_node_send(node, frame_type, key)
}

// The key to receive a frame with.
#[unsafe(no_mangle)]
pub extern "C" fn pothatch_node_receive(
    node: &[u8],
    frame_type: u64,
    identifier: u64,
    key: &mut [u8],
) -> u32
    ensures { Gives 33 (receiving (code_of frame_type) (identifier_of identifier)) node.now key.old result
        key.new }
{
    pothatch::nodes::pothatch_node_receive(node, frame_type, identifier, key)
}

// The radio verified such a frame.
#[unsafe(no_mangle)]
pub extern "C" fn pothatch_node_verified(
    node: &mut [u8],
    frame_type: u64,
    identifier: u64,
    change: &mut u32,
) -> u32
    ensures { Does (reporting (code_of frame_type) (identifier_of identifier)) node.old result node.new
        change.new }
{
    pothatch::nodes::pothatch_node_verified(node, frame_type, identifier, change)
}
