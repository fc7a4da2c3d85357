// The image of a configuration.
ghost use Rattle.std.specs.Prelude.{◌≡◌, ◌+◌, ◌≤◌, length, drop};
ghost use Rattle.byte_io.specs.Write.{Wrote};
ghost use Rattle.image.specs.Part.{is_image};
ghost use Rattle.object_image.specs.Configuration.{keys_parameter_part, earlier_fields, earlier_from};
ghost use Rattle.object_image.specs.Configuration.{later_fields, later_from, configuration_image};

use crate::address::{address_parameter_at, is_address_parameter, put_address_parameter};
use crate::codes::{disposition_at, is_disposition, put_disposition};
use crate::error_reports::{error_reports_at, put_error_reports};
use crate::list::{is_list_parameter, list_parameter_at, put_list_parameter};
use crate::octets::{is_octets_parameter, octets_parameter_at, put_octets_parameter};
use crate::rate::{is_rate_parameter, put_rate_parameter, rate_parameter_at};
use cojp::{Configuration, KeysParameter};
use image::{is_headed, number_at, put_head, put_number};
use key_image::{is_key_set, key_set_at, put_key_set};

const KIND: u8 = b'C';

const SIZE: usize = 570;

// Whether the bytes at a place are a key set as a parameter.
fn is_keys_parameter(s: &[u8], at: usize) -> bool
    requires { at + 218 ≤ length s.now }
    ensures { result ≡ keys_parameter_part.good (drop at s.now) }
{
    is_disposition(s, at) && is_key_set(s, at + 1)
}

// The parameter at a place.
fn keys_parameter_at(s: &[u8], at: usize) -> KeysParameter
    requires { at + 218 ≤ length s.now }
    ensures { result ≡ keys_parameter_part.get (drop at s.now) }
{
    KeysParameter {
        disposition: disposition_at(s, at),
        value: key_set_at(s, at + 1),
    }
}

// Writes a key set as a parameter.
fn put_keys_parameter(dst: &mut [u8], parameter: KeysParameter)
    requires { 218 ≤ length dst.old }
    ensures { Wrote (keys_parameter_part.put parameter) dst.old 218 dst.new }
{
    put_disposition(dst, parameter.disposition);
    put_key_set(&mut dst[1..], parameter.value);
}

// Whether the fields up to the prefix are good.
fn is_earlier(s: &[u8], at: usize) -> bool
    requires { at + 284 ≤ length s.now }
    ensures { result ≡ earlier_fields.good (drop at s.now) }
{
    if !is_keys_parameter(s, at) {
        return false;
    }
    if !is_address_parameter(s, at + 218) {
        return false;
    }
    if !is_octets_parameter(s, at + 230) {
        return false;
    }
    if !is_octets_parameter(s, at + 248) {
        return false;
    }
    is_octets_parameter(s, at + 266)
}

// Whether the fields from the blacklist on are good.
fn is_later(s: &[u8], at: usize) -> bool
    requires { at + 284 ≤ length s.now }
    ensures { result ≡ later_fields.good (drop at s.now) }
{
    is_list_parameter(s, at) && is_rate_parameter(s, at + 256)
}

// Whether the bytes are a configuration's image.
pub fn is_configuration(s: &[u8]) -> bool
    ensures { result ≡ is_image configuration_image s.now }
{
    if !is_headed(s, SIZE, KIND) {
        return false;
    }
    if !is_earlier(s, 2) {
        return false;
    }
    is_later(s, 286)
}

// The configuration in an image.
pub fn configuration_in(s: &[u8]) -> Configuration
    requires { length s.now ≡ 570 }
    ensures { result ≡ configuration_image.get s.now }
{
    Configuration {
        keys: keys_parameter_at(s, 2),
        address: address_parameter_at(s, 220),
        jrc: octets_parameter_at(s, 232),
        network: octets_parameter_at(s, 250),
        prefix: octets_parameter_at(s, 268),
        blacklist: list_parameter_at(s, 286),
        rate: rate_parameter_at(s, 542),
        labels: error_reports_at(s, 551),
        unknown: number_at(s, 562, 8),
    }
}

// Writes the fields up to the prefix.
fn put_earlier(dst: &mut [u8], configuration: Configuration)
    requires { 284 ≤ length dst.old }
    ensures { Wrote (earlier_fields.put (earlier_from configuration)) dst.old 284 dst.new }
{
    put_keys_parameter(dst, configuration.keys);
    put_address_parameter(&mut dst[218..], configuration.address);
    put_octets_parameter(&mut dst[230..], configuration.jrc);
    put_octets_parameter(&mut dst[248..], configuration.network);
    put_octets_parameter(&mut dst[266..], configuration.prefix);
}

// Writes the fields from the blacklist on.
fn put_later(dst: &mut [u8], configuration: Configuration)
    requires { 284 ≤ length dst.old }
    ensures { Wrote (later_fields.put (later_from configuration)) dst.old 284 dst.new }
{
    put_list_parameter(dst, configuration.blacklist);
    put_rate_parameter(&mut dst[256..], configuration.rate);
    put_error_reports(&mut dst[265..], configuration.labels);
    put_number(&mut dst[276..], 8, configuration.unknown);
}

// Stores a configuration.
pub fn put_configuration(dst: &mut [u8], configuration: Configuration)
    requires { length dst.old ≡ 570 }
    ensures { dst.new ≡ configuration_image.put configuration }
{
    put_head(dst, KIND);
    put_earlier(&mut dst[2..], configuration);
    put_later(&mut dst[286..], configuration);
}
