// A recorded night.
ghost use Rattle.replay_calls.specs.Replays.{Replays};

// Replays a recorded night: the node that the calls of its records give, and what is told beside it.
pub fn pothatch_replay(trace: &[u8], node: &mut [u8], out: &mut [u8]) -> u32
    ensures { Replays trace.now node.old out.old result node.new out.new }
{
    replay_calls::replay(trace, node, out)
}
