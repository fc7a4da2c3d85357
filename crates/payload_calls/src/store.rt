// What a call answers, and what it stores, by its verdict.
ghost use Rattle.std.specs.Prelude.{◌≡◌, length as size, replicate};
ghost use Rattle.refusal.specs.Verdict.{verdict_number};
ghost use Rattle.byte_io.specs.Write.{written_says};
ghost use Rattle.image.specs.Effects.{on_accept};
ghost use Rattle.object_image.specs.Configuration.{configuration_image};
ghost use Rattle.object_image.specs.Request.{request_image};

use cojp::{Configuration, JoinRequest};
use image::clear;
use object_image::{put_configuration, put_request};
use refusal::Refusal;

// Kept: one function for each object, since the clauses of the C interface name its image and its size.

// A join request as a result.
pub fn store_request(verdict: Result<(), Refusal>, request: JoinRequest, out: &mut [u8]) -> u32
    requires { size out.old ≡ 296 }
    ensures number { result ≡ verdict_number verdict }
    ensures out { out.new ≡ on_accept verdict (replicate 296 0) (request_image.put request) }
{
    match verdict {
        Ok(()) => {
            put_request(out, request);
            0
        }
        Err(why) => {
            clear(out);
            why.number() as u32
        }
    }
}

// A configuration as a result.
pub fn store_configuration(
    verdict: Result<(), Refusal>,
    configuration: Configuration,
    out: &mut [u8],
) -> u32
    requires { size out.old ≡ 570 }
    ensures number { result ≡ verdict_number verdict }
    ensures out { out.new ≡ on_accept verdict (replicate 570 0) (configuration_image.put configuration) }
{
    match verdict {
        Ok(()) => {
            put_configuration(out, configuration);
            0
        }
        Err(why) => {
            clear(out);
            why.number() as u32
        }
    }
}

// How many bytes were written.
pub(crate) fn store_length(written: Result<usize, Refusal>, length: &mut u64) -> u32
    ensures number { result ≡ (written_says written).0 }
    ensures length { length.new ≡ (written_says written).1 }
{
    match written {
        Err(why) => {
            *length = 0;
            why.number() as u32
        }
        Ok(n) => {
            *length = n as u64;
            0
        }
    }
}
