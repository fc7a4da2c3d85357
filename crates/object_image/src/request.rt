// The image of a join request.
ghost use Rattle.std.specs.Prelude.{◌≡◌, ◌≤◌, length};
ghost use Rattle.byte_io.specs.Write.{Wrote};
ghost use Rattle.image.specs.Part.{is_image};
ghost use Rattle.object_image.specs.Request.{later_fields, later_from, request_image};

use crate::error_reports::{error_reports_at, put_error_reports};
use crate::list::{is_list_parameter, list_parameter_at, put_list_parameter};
use crate::octets::{is_octets_parameter, octets_parameter_at, put_octets_parameter};
use cojp::JoinRequest;
use image::{is_headed, number_at, put_byte, put_head, put_number};

const KIND: u8 = b'Q';

const SIZE: usize = 296;

// Whether the bytes are a join request's image.
pub fn is_request(s: &[u8]) -> bool
    ensures { result ≡ is_image request_image s.now }
{
    is_headed(s, SIZE, KIND) && is_octets_parameter(s, 3) && is_list_parameter(s, 21)
}

// The join request in an image.
pub fn request_in(s: &[u8]) -> JoinRequest
    requires { length s.now ≡ 296 }
    ensures { result ≡ request_image.get s.now }
{
    JoinRequest {
        role: s[2],
        network: octets_parameter_at(s, 3),
        unsupported: list_parameter_at(s, 21),
        errors: error_reports_at(s, 277),
        unknown: number_at(s, 288, 8),
    }
}

// Writes what stands after the network identifier.
fn put_later(dst: &mut [u8], request: JoinRequest)
    requires { 275 ≤ length dst.old }
    ensures { Wrote (later_fields.put (later_from request)) dst.old 275 dst.new }
{
    put_list_parameter(dst, request.unsupported);
    put_error_reports(&mut dst[256..], request.errors);
    put_number(&mut dst[267..], 8, request.unknown);
}

// Stores a join request.
pub fn put_request(dst: &mut [u8], request: JoinRequest)
    requires { length dst.old ≡ 296 }
    ensures { dst.new ≡ request_image.put request }
{
    put_head(dst, KIND);
    put_byte(&mut dst[2..], request.role);
    put_octets_parameter(&mut dst[3..], request.network);
    put_later(&mut dst[21..], request);
}
