// The command `rewrite READING HEX`: the object that was read, written again.
use crate::command::{Object, Reading};
use refusal::Refusal;
use tool_text::first;
use tool_text::output::{ByteString, Output};

pub fn answer(reading: Reading, payload: &[u8], out: &mut Output) {
    let mut dst = [0u8; 256];
    match rewrite(reading, payload, &mut dst) {
        Ok(len) => write!(out, "wrote {}", ByteString(first(&dst, len))),
        Err(refusal) => tool_notation::put_refusal(out, refusal),
    }
}

fn rewrite(reading: Reading, payload: &[u8], dst: &mut [u8]) -> Result<usize, Refusal> {
    let version = reading.version;
    match reading.object {
        Object::Request => {
            let read = cojp_read::read_request(payload, version, reading.strict);
            read.verdict?;
            cojp_write::write_request(dst, read.request, version)
        }
        Object::Configuration => {
            let read = cojp_read::read_configuration(payload, version, reading.strict);
            read.verdict?;
            cojp_write::write_configuration(dst, read.configuration, version)
        }
    }
}
