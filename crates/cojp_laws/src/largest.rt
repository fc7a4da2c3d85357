// How many bytes a payload takes.
ghost use Rattle.cojp_laws.specs.Largest.{LargestConfiguration, DraftWritten, PayloadsFit, LargestAttained, LongestRead};

use cojp::Configuration;

// No configuration of the draft takes more than 232 bytes.
pub fn largest_configuration(c: Configuration)
    ensures { LargestConfiguration c }
{
    cbor::laws();
    cbor::head_laws();
    cojp_list::laws();
    link_key::set::laws();
}

// So a configuration of the draft within its limits is written.
pub fn draft_written(c: Configuration)
    ensures { DraftWritten c }
{
    cbor::laws();
    cbor::head_laws();
    cojp_list::laws();
    link_key::set::laws();
}

// And one takes as many.
pub fn largest_attained_law()
    ensures { LargestAttained }
{}

// In either form what is written has at most 256 bytes.
pub fn payload_size_law()
    ensures { PayloadsFit }
{}

// 256 bytes are read, and 257 are LONG.
pub fn longest_read_law()
    ensures { LongestRead }
{}
