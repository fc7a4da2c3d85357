// A trace is walked record by record.
ghost use Rattle.std.specs.Prelude.{◌≡◌, ◌+◌, ◌≤◌, ◌<◌, ◌^◌, length, drop};
ghost use Rattle.trace_record.specs.Layout.{record_size, network_used};
ghost use Rattle.trace.specs.Trace.{new_node, start, join_answer, update, verified, poll, got, network_in};
ghost use Rattle.trace.specs.Step.{advance, step};

use crate::count::{longer, started_by};
use crate::done;
use crate::state::{Progress, State, StepResult, reached};
use cojp::{Octets, copied};
use node_parameters::HeldOctets;
use node_parameters::octets::absent_octets;
use trace_record::{
    DELIVERY_SIZE, Entry, NEW_SIZE, POLL_SIZE, START_SIZE, VERIFIED_SIZE, entry_at,
};

// The network identifier of so many bytes that stands at a place, or none for 255.
fn network_at(trace: &[u8], at: usize, len: u8) -> HeldOctets
    requires { (network_used len ≤ 16) × (at + 16 ≤ length trace.now) }
    ensures { result ≡ network_in len (drop at trace.now) }
{
    if len == 255 {
        return absent_octets();
    }
    let size = len as usize;
    let bytes = copied(trace, at, size);
    let value = Octets { len: size, bytes };
    HeldOctets { held: true, value }
}

fn new_at(at: usize, role: u8, network: HeldOctets, state: State) -> StepResult
    requires { at + record_size 1 < 2 ^ 64 }
    ensures { result ≡ advance (got (new_node role network)) at state }
{
    let did = done::new_node(state.node, role, network);
    let longest = state.statistics.longest;
    reached(
        Progress::Walked,
        at + NEW_SIZE,
        state.after(0, did, state.started, longest),
    )
}

// Kept: no plainer: this and the four below differ in call, kind and waits, each the case of `advance (got ..)` that its clause names; one
// function would take the call as a closure and copy the node once more.
fn start_at(at: usize, time: u64, timeout: u64, state: State) -> StepResult
    requires { at + record_size 2 < 2 ^ 64 }
    ensures { result ≡ advance (got (start time timeout)) at state }
{
    if !state.made {
        return reached(Progress::Stopped, at, state);
    }
    let did = done::start(state.node, time, timeout);
    let verdict = did.verdict;
    let started = started_by(verdict, time, state.started);
    let longest = state.statistics.longest;
    reached(
        Progress::Walked,
        at + START_SIZE,
        state.after(1, did, started, longest),
    )
}

fn join_answer_at(at: usize, time: u64, payload: &[u8], state: State) -> StepResult
    requires { at + record_size 3 < 2 ^ 64 }
    ensures { result ≡ advance (got (join_answer time payload.now)) at state }
{
    if !state.made {
        return reached(Progress::Stopped, at, state);
    }
    let did = done::join_answer(state.node, time, payload);
    let verdict = did.verdict;
    let longest = longer(verdict, state.started, time, state.statistics.longest);
    reached(
        Progress::Walked,
        at + DELIVERY_SIZE,
        state.after(2, did, state.started, longest),
    )
}

fn update_at(at: usize, time: u64, payload: &[u8], state: State) -> StepResult
    requires { at + record_size 4 < 2 ^ 64 }
    ensures { result ≡ advance (got (update time payload.now)) at state }
{
    if !state.made {
        return reached(Progress::Stopped, at, state);
    }
    let did = done::update(state.node, time, payload);
    let longest = state.statistics.longest;
    reached(
        Progress::Walked,
        at + DELIVERY_SIZE,
        state.after(3, did, state.started, longest),
    )
}

fn verified_at(at: usize, frame_type: u8, identifier: u8, state: State) -> StepResult
    requires { at + record_size 5 < 2 ^ 64 }
    ensures { result ≡ advance (got (verified frame_type identifier)) at state }
{
    if !state.made {
        return reached(Progress::Stopped, at, state);
    }
    let did = done::verified(state.node, frame_type, identifier);
    let longest = state.statistics.longest;
    reached(
        Progress::Walked,
        at + VERIFIED_SIZE,
        state.after(4, did, state.started, longest),
    )
}

fn poll_at(at: usize, time: u64, state: State) -> StepResult
    requires { at + record_size 6 < 2 ^ 64 }
    ensures { result ≡ advance (got (poll time)) at state }
{
    if !state.made {
        return reached(Progress::Stopped, at, state);
    }
    let did = done::poll(state.node, time);
    let longest = state.statistics.longest;
    reached(
        Progress::Walked,
        at + POLL_SIZE,
        state.after(5, did, state.started, longest),
    )
}

// The record at a place: its call is made and counted. The walk is complete at the trace's end, and stops at a record that is not good or
// comes before the first node.
pub fn step(trace: &[u8], at: usize, state: State) -> StepResult
    ensures { result ≡ step trace.now at state }
{
    match entry_at(trace, at) {
        Entry::End => reached(Progress::Complete, at, state),
        Entry::Bad => reached(Progress::Stopped, at, state),
        Entry::New(role, len) => new_at(at, role, network_at(trace, at + 3, len), state),
        Entry::Start(time, timeout) => start_at(at, time, timeout, state),
        Entry::JoinAnswer(time, size) => {
            let from = at + 11;
            let to = from + size;
            join_answer_at(at, time, &trace[from..to], state)
        }
        Entry::Update(time, size) => {
            let from = at + 11;
            let to = from + size;
            update_at(at, time, &trace[from..to], state)
        }
        Entry::Verified(frame_type, identifier) => verified_at(at, frame_type, identifier, state),
        Entry::Poll(time) => poll_at(at, time, state),
    }
}
