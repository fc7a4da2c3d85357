// A group of a key set is read: an identifier, perhaps a usage, a value and perhaps, where keys may have it, additional information.
ghost use Rattle.std.specs.Prelude.{◌+◌, ◌≤◌, ◌<◌, length, take, drop};
ghost use Rattle.cojp.specs.Bytes.{members_at};
ghost use Rattle.cojp.specs.KeySet.{groups, identified, used, valued};
ghost use Rattle.cojp_key_set.specs.Groups.{GroupAt, GroupRest};

use crate::additional_info::additional_info_at;
use cojp::{Member, member_at};

// A group: where its value stands in the part, and where the part goes on after the group, with how many members. Of additional
// information `extra` tells how many bytes it has: 4 or 8, right before `next`, or 0 where there is none. It is read where the key is made:
// carried here it would be copied with its unused bytes from answer to answer, which takes longer than reading it again.
#[derive(Clone, Copy)]
pub struct Group {
    pub identifier: u64,
    pub usage: u64,
    pub start: usize,
    pub len: usize,
    pub extra: usize,
    pub next: usize,
    pub left: u64,
}

// The group at the front of a part of the payload, where `left` members are left. `allows_additional_info` tells whether keys may have
// additional information.
pub(crate) fn read_group(part: &[u8], left: u64, allowed: bool) -> Option<Group>
    requires { 0 < left }
    ensures group_at { GroupAt allowed part.now left (groups allowed (members_at left part.now)) result }
    ensures rest { GroupRest part.now 0 left result }
{
    let first = member_at(part, 0, left);
    match first {
        Member::Number { number, next } => after_identifier(part, next, left - 1, allowed, number),
        _ => None,
    }
}

// The rest of a group after its identifier: a value, or a usage and a value.
fn after_identifier(
    part: &[u8],
    at: usize,
    left: u64,
    allowed: bool,
    identifier: u64,
) -> Option<Group>
    ensures group_at { GroupAt allowed part.now left
        (identified allowed identifier (members_at left (drop at part.now))) result }
    ensures rest { GroupRest part.now at left result }
{
    let second = member_at(part, at, left);
    match second {
        Member::Number { number, next } => after_usage(
            part,
            next,
            left - 1,
            allowed,
            identifier,
            number,
        ),
        Member::Bytes { start, len } => after_value(
            part,
            start,
            len,
            left - 1,
            allowed,
            identifier,
            0,
        ),
        Member::Neither => None,
    }
}

// The rest of a group after its usage: a value.
fn after_usage(
    part: &[u8],
    at: usize,
    left: u64,
    allowed: bool,
    identifier: u64,
    usage: u64,
) -> Option<Group>
    ensures group_at { GroupAt allowed part.now left
        (used allowed identifier usage (members_at left (drop at part.now))) result }
    ensures rest { GroupRest part.now at left result }
{
    let third = member_at(part, at, left);
    match third {
        Member::Bytes { start, len } => after_value(
            part,
            start,
            len,
            left - 1,
            allowed,
            identifier,
            usage,
        ),
        _ => None,
    }
}

// The rest of a group after its value, `len` bytes from `start` on: additional information, where it may come and comes.
fn after_value(
    part: &[u8],
    start: usize,
    len: usize,
    left: u64,
    allowed: bool,
    identifier: u64,
    usage: u64,
) -> Option<Group>
    requires { start + len ≤ length part.now }
    ensures group_at { GroupAt allowed part.now (left + 1)
        (valued allowed identifier usage (take len (drop start part.now))
        (members_at left (drop (start + len) part.now))) result }
    ensures rest { GroupRest part.now (start + len) left result }
{
    let end = start + len;
    if allowed {
        let further = member_at(part, end, left);
        match further {
            Member::Bytes {
                start: from,
                len: n,
            } => {
                additional_info_at(part, from, n)?;
                return Some(Group {
                    identifier,
                    usage,
                    start,
                    len,
                    extra: n,
                    next: from + n,
                    left: left - 1,
                });
            }
            _ => {}
        }
    }
    Some(Group {
        identifier,
        usage,
        start,
        len,
        extra: 0,
        next: end,
        left,
    })
}
