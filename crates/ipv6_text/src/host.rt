//! Whether a text is an IPv6 host.
ghost use Rattle.std.specs.Prelude.{◌≡◌, ◌↔◌, IsTrue, bytes_eq};
ghost use Rattle.std.specs.Net.Text.{hex_groups_text};
ghost use Rattle.std.specs.Net.Addr.{ipv6_segments};
ghost use Rattle.ipv6_text.specs.Ipv6Text.{is_mapped, is_ipv6_host, IsIpv6Host};

use crate::groups::text_of;
use std::net::Ipv6Addr;

/// Whether an address is mapped from IPv4: `::ffff:0:0/96`.
fn is_mapped(address: &Ipv6Addr) -> bool
    ensures { result ≡ is_mapped (ipv6_segments address.now) }
{
    address.to_ipv4_mapped().is_some()
}

/// Whether a text is the one that an address has.
fn is_text_of(address: &Ipv6Addr, text: &[u8]) -> bool
    ensures { result ≡ bytes_eq (hex_groups_text (ipv6_segments address.now)) text.now }
{
    text_of(&address.segments()).bytes() == text
}

/// Whether a text is an IPv6 address in the one text that RFC 5952 gives it: eight groups of 16 bits in lower-case
/// hexadecimal without leading zeros, joined by colons, the longest run of two or more zero groups, of several the first,
/// written `::`. An address that is mapped from IPv4 (`::ffff:0:0/96`) is none: a socket for IPv6 alone can't serve it.
pub fn is_ipv6_host(text: &[u8]) -> bool
    ensures exact { result ≡ is_ipv6_host text.now }
    ensures grammar { IsTrue result ↔ IsIpv6Host text.now }
{
    match Ipv6Addr::parse_ascii(text) {
        Ok(address) => !is_mapped(&address) && is_text_of(&address, text),
        Err(_) => false,
    }
}
