// An answer as one number, so that C can compare it with another reader's: a number for each value, at a place that the caller picks.
use cojp::{Configuration, Octets};
use link_key::set::KeySet;
use refusal::Refusal;

// Document 01's number, and 0 for accepted.
pub(crate) fn verdict_number(verdict: Result<(), Refusal>) -> u64 {
    match verdict {
        Ok(()) => 0,
        Err(why) => u64::from(why.number()),
    }
}

pub(crate) fn octets_number(octets: Octets, pick: u8) -> u64 {
    u64::from(octets.bytes[usize::from(pick % 16)])
}

pub(crate) fn keys_number(set: KeySet, pick: u8) -> u64 {
    let key = set.keys[usize::from(pick % 8)];
    let byte = key.value[usize::from(pick % 16)];
    u64::from(key.identifier) ^ u64::from(key.usage) ^ u64::from(byte) ^ (set.count as u64)
}

pub(crate) fn configuration_number(c: Configuration, pick: u8) -> u64 {
    let address = c.address.value;
    let byte = address.bytes[usize::from(pick % 2)];
    keys_number(c.keys.value, pick)
        ^ address.lease
        ^ u64::from(byte)
        ^ octets_number(c.jrc.value, pick)
        ^ octets_number(c.network.value, pick)
        ^ octets_number(c.prefix.value, pick)
        ^ c.unknown
}
