// What a key's usage means for the radio. Beacons are never encrypted (004, Table 3: K1 is used without encryption).
ghost use Rattle.pothatch.specs.Usage.{UsageSpec};

// Whether data frames and acknowledgements under a key of this usage are encrypted, and the length of a frame's MIC in bytes.
#[unsafe(no_mangle)]
pub extern "C" fn pothatch_key_usage(usage: u64, encrypted: &mut u32, mic_length: &mut u32) -> u32
    ensures { UsageSpec usage result encrypted.new mic_length.new }
{
    pothatch::usage::pothatch_key_usage(usage, encrypted, mic_length)
}
