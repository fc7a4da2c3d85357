// Keys and key sets.
use crate::list::put_list;
use link_key::set::KeySet;
use link_key::{Key, additional_info_bytes};
use tool_text::first;
use tool_text::output::{ByteString, Output};

// A key, as 1/0/h'000102030405060708090a0b0c0d0e0f'; additional information stands after it, as /h'00010203'.
pub fn put_key(out: &mut Output, key: Key) {
    write!(
        out,
        "{}/{}/{}",
        key.identifier,
        key.usage,
        ByteString(&key.value)
    );
    let source = additional_info_bytes(key.info);
    if source.len != 0 {
        write!(out, "/{}", ByteString(first(&source.bytes, source.len)));
    }
}

// A key set, as [KEY,KEY].
pub fn put_key_set(out: &mut Output, set: KeySet) {
    put_list(
        out,
        first(&set.keys, set.count),
        |out, key| put_key(out, *key),
    );
}
