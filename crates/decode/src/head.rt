// The command `head HEX`.
use tool_text::output::Output;

pub fn answer(bytes: &[u8], out: &mut Output) {
    match cbor::read_head(bytes, 0) {
        Ok(head) => write!(
            out,
            "head major={} info={} argument={} next={} shortest={}",
            head.major,
            head.info,
            head.argument,
            head.next,
            if head.short { "yes" } else { "no" }
        ),
        Err(refusal) => tool_notation::put_refusal(out, refusal),
    }
}
