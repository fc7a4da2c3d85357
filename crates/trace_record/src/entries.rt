// What stands at a place of a trace.
ghost use Rattle.std.specs.Prelude.{◌≡◌, ◌+◌, ◌≤◌, length, drop};
ghost use Rattle.trace_record.specs.Layout.{body_size, is_network_length, network_used, new_node};
ghost use Rattle.trace_record.specs.Layout.{delivery, delivery_of, verified, fields, EntryAt};

use crate::fields::{blank, number_at};

// The end of the trace; no good record; or a record's numbers, in the order of its fields.
// Kept: `EntriesSay` of `kind_law` and `Inside` of `EntryAt` tell each of the eight cases by its number and its fields as they are written,
// so End and Bad stand beside the records, and role, frame type and a length of 255 for none stay numbers.
#[derive(Clone, Copy)]
pub enum Entry {
    End,
    Bad,
    // role, network length; the network identifier stands 3 bytes on
    New(u8, u8),
    // time, first timeout
    Start(u64, u64),
    // time, length; the payload stands 11 bytes on
    JoinAnswer(u64, usize),
    Update(u64, usize),
    // frame type, key identifier
    Verified(u8, u8),
    // time
    Poll(u64),
}

// How many bytes the body of a record has.
const NEW_BODY: usize = 18;

const START_BODY: usize = 12;

const DELIVERY_BODY: usize = 266;

const VERIFIED_BODY: usize = 2;

const POLL_BODY: usize = 8;

// How many bytes a record has, with the byte of its kind.
pub const NEW_SIZE: usize = 1 + NEW_BODY;

pub const START_SIZE: usize = 1 + START_BODY;

pub const DELIVERY_SIZE: usize = 1 + DELIVERY_BODY;

pub const VERIFIED_SIZE: usize = 1 + VERIFIED_BODY;

pub const POLL_SIZE: usize = 1 + POLL_BODY;

// How many bytes a record of this kind has after its first; 0 where there is no such kind.
fn body_size(kind: u8) -> usize
    ensures { result ≡ body_size kind }
{
    match kind {
        1 => NEW_BODY,
        2 => START_BODY,
        3 => DELIVERY_BODY,
        4 => DELIVERY_BODY,
        5 => VERIFIED_BODY,
        6 => POLL_BODY,
        _ => 0,
    }
}

fn is_network_length(len: u8) -> bool
    ensures { result ≡ is_network_length len }
{
    len == 255 || len <= 16
}

fn network_used(len: u8) -> usize
    ensures { result ≡ network_used len }
{
    if len == 255 {
        return 0;
    }
    len as usize
}

fn new_at(s: &[u8], at: usize) -> Entry
    requires { at + 18 ≤ length s.now }
    ensures { result ≡ new_node (drop at s.now) }
{
    let role = s[at];
    let len = s[at + 1];
    if 1 < role {
        return Entry::Bad;
    }
    if !is_network_length(len) {
        return Entry::Bad;
    }
    let used = network_used(len);
    if blank(s, at + 2 + used, 16 - used) {
        return Entry::New(role, len);
    }
    Entry::Bad
}

// An update, or else a join answer.
fn delivery_of(update: bool, time: u64, len: usize) -> Entry
    ensures { result ≡ delivery_of update time len }
{
    if update {
        return Entry::Update(time, len);
    }
    Entry::JoinAnswer(time, len)
}

fn delivery_at(update: bool, s: &[u8], at: usize) -> Entry
    requires { at + 266 ≤ length s.now }
    ensures { result ≡ delivery (delivery_of update) (drop at s.now) }
{
    let time = number_at(s, at, 8);
    let len = number_at(s, at + 8, 2);
    if 256 < len {
        return Entry::Bad;
    }
    let size = len as usize;
    if blank(s, at + 10 + size, 256 - size) {
        return delivery_of(update, time, size);
    }
    Entry::Bad
}

fn verified_at(s: &[u8], at: usize) -> Entry
    requires { at + 2 ≤ length s.now }
    ensures { result ≡ verified (drop at s.now) }
{
    let frame_type = s[at];
    if 1 < frame_type {
        return Entry::Bad;
    }
    let identifier = s[at + 1];
    Entry::Verified(frame_type, identifier)
}

// The record of this kind whose body begins at `at`.
// Kept: no plainer: a kind is read once, here and for its size, and the match over its number is the format's table.
fn fields_at(kind: u8, s: &[u8], at: usize) -> Entry
    requires { at + body_size kind ≤ length s.now }
    ensures { result ≡ fields kind (drop at s.now) }
{
    match kind {
        1 => new_at(s, at),
        2 => Entry::Start(number_at(s, at, 8), number_at(s, at + 8, 4)),
        3 => delivery_at(false, s, at),
        4 => delivery_at(true, s, at),
        5 => verified_at(s, at),
        6 => Entry::Poll(number_at(s, at, 8)),
        _ => Entry::Bad,
    }
}

// What stands at a place of a trace; past its end, the end.
pub fn entry_at(s: &[u8], at: usize) -> Entry
    ensures { EntryAt s.now at result }
{
    if s.len() <= at {
        return Entry::End;
    }
    let body = at + 1;
    let kind = s[at];
    if s.len() - body < body_size(kind) {
        return Entry::Bad;
    }
    fields_at(kind, s, body)
}
