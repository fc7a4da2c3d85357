// Two configurations are joined.
ghost use Rattle.payload_calls.specs.Merge.{Merges};

use crate::store::store_configuration;
use cojp_merge::merge;
use image::{RANGE, clear};
use object_image::{configuration_in, is_configuration};

// Each parameter from the second where it is taken there, else from the first.
pub fn configuration_merge(first: &[u8], second: &[u8], out: &mut [u8]) -> u32
    ensures { Merges first.now second.now out.old result out.new }
{
    if out.len() != 570 {
        return RANGE;
    }
    if !is_configuration(first) {
        clear(out);
        return RANGE;
    }
    if !is_configuration(second) {
        clear(out);
        return RANGE;
    }
    let merged = merge(configuration_in(first), configuration_in(second));
    store_configuration(merged.verdict, merged.configuration, out)
}
