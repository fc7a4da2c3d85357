// The command `merge HEX + HEX`: two configurations joined and written.
use cojp::Configuration;
use protocol_version::Version;
use refusal::Refusal;
use tool_text::line::Tail;
use tool_text::line_error::LineError;
use tool_text::output::{ByteString, Output};
use tool_text::parting::Halves;

pub fn answer(tail: Tail, payloads: &[u8], out: &mut Output) -> Result<(), LineError> {
    let Halves { first, whole } = tail.parted().parts()?;
    let both = tool_text::first(payloads, whole);
    let mut dst = [0u8; 256];
    let written = merge(
        tool_text::first(both, first),
        tool_text::rest(both, first),
        &mut dst,
    );
    match written {
        Ok(len) => write!(out, "merged {}", ByteString(tool_text::first(&dst, len))),
        Err((which, refusal)) => {
            write!(out, "{which}");
            tool_notation::put_refusal(out, refusal);
        }
    }
    Ok(())
}

// Both payloads are read, the first one first. With a refusal comes which of them it is of.
fn merge(first: &[u8], second: &[u8], dst: &mut [u8]) -> Result<usize, (&'static str, Refusal)> {
    let one = read(first).map_err(|refusal| ("first ", refusal))?;
    let other = read(second).map_err(|refusal| ("second ", refusal))?;
    write_merged(one, other, dst).map_err(|refusal| ("", refusal))
}

fn read(payload: &[u8]) -> Result<Configuration, Refusal> {
    let read = cojp_read::read_configuration(payload, Version::Draft, false);
    read.verdict?;
    Ok(read.configuration)
}

fn write_merged(
    one: Configuration,
    other: Configuration,
    dst: &mut [u8],
) -> Result<usize, Refusal> {
    let merged = cojp_merge::merge(one, other);
    merged.verdict?;
    cojp_write::write_configuration(dst, merged.configuration, Version::Draft)
}
