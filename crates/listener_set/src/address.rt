//! Listening addresses.
ghost use Rattle.std.specs.Prelude.{◌≡◌, ◌≤◌, ◌↔◌, length, codes, Ok, IsOk};
ghost use Rattle.std.specs.List.{AllPass, list_all, slice_split};
ghost use Rattle.std.specs.Char.{is_ascii_graphic};
ghost use Rattle.plain_text.specs.NumberText.{is_within};
ghost use Rattle.listener_set.specs.AddressText.{reading, check, path_check, dotted_check, bracketed_check, port_check, is_host, is_dot, IsAddress};

use crate::short_text::{ShortText, TEXT_BYTES};
use ipv6_text::is_ipv6_host;
use plain_text::{around, cut, number_within};
use std::error::Error;
use std::fmt;
use std::marker::Model;

/// The most bytes of an address, as the path of a Unix socket has.
pub const ADDRESS_BYTES: usize = TEXT_BYTES;

/// Why a text is no address: the first rule that it breaks.
#[derive(Clone, Copy, Debug, PartialEq, Eq)]
pub enum AddressRefusal {
    /// A1: the text is empty.
    Empty,
    /// A2: the host is not four numbers from 0 to 255 joined by dots, nor an IPv6 address in brackets.
    BadHost,
    /// A3: the port is not a number from 1 to 65535.
    BadPort,
    /// A4: the path is longer than 107 bytes.
    PathLong,
    /// A5: the path has a byte that is not graphic ASCII.
    BadPath,
}

impl AddressRefusal {
    ghost use Rattle.listener_set.specs.Codes.{address_code};

    /// The code of the rule, as it is printed.
    pub fn code(&self) -> &'static str
        ensures { result.now ≡ address_code self.now }
    {
        match self {
            AddressRefusal::Empty => "A1",
            AddressRefusal::BadHost => "A2",
            AddressRefusal::BadPort => "A3",
            AddressRefusal::PathLong => "A4",
            AddressRefusal::BadPath => "A5",
        }
    }
}

/// Printed as its code.
impl fmt::Display for AddressRefusal {
    ghost use Rattle.std.specs.Prelude.{Some};
    ghost use Rattle.listener_set.specs.Codes.{address_code};

    ghost output = { λ refusal. Some (address_code refusal) };

    fn fmt<W: fmt::Write>(&self, f: &mut fmt::Formatter<W>) -> fmt::Result {
        f.write_str(self.code())
    }
}

impl Error for AddressRefusal {}

fn part_count(host: &[u8]) -> usize
    ensures { result ≡ length (slice_split is_dot host.now) }
{
    host.split(|byte| *byte == b'.').count()
}

fn are_octets(host: &[u8]) -> bool
    ensures { result ≡ list_all (is_within 0 255) (slice_split is_dot host.now) }
{
    host.split(|byte| *byte == b'.')
        .all(|part| number_within(part, 0, 255).is_some())
}

/// Whether a text is four numbers up to 255 joined by dots.
fn is_host(host: &[u8]) -> bool
    ensures { result ≡ is_host host.now }
{
    part_count(host) == 4 && are_octets(host)
}

/// Whether each byte is from 0x21 to 0x7E.
pub(crate) fn is_graphic(text: &[u8]) -> bool
    ensures { result ≡ list_all is_ascii_graphic text.now }
{
    text.iter().all(|byte| byte.is_ascii_graphic())
}

fn check_path(text: &[u8]) -> Result<(), AddressRefusal>
    ensures { result ≡ path_check text.now }
{
    if text.len() > ADDRESS_BYTES {
        return Err(AddressRefusal::PathLong);
    }
    if !is_graphic(text) {
        return Err(AddressRefusal::BadPath);
    }
    Ok(())
}

fn check_dotted(text: &[u8]) -> Result<(), AddressRefusal>
    ensures { result ≡ dotted_check text.now }
{
    let (host, port) = around(text, b':');
    if !is_host(host) {
        return Err(AddressRefusal::BadHost);
    }
    check_port(port)
}

fn check_port(port: &[u8]) -> Result<(), AddressRefusal>
    ensures { result ≡ port_check port.now }
{
    if number_within(port, 1, 65535).is_none() {
        return Err(AddressRefusal::BadPort);
    }
    Ok(())
}

/// Checks what stands behind an opening bracket.
fn check_bracketed(text: &[u8]) -> Result<(), AddressRefusal>
    ensures { result ≡ bracketed_check text.now }
{
    let Some((host, rest)) = cut(text, b']') else {
        return Err(AddressRefusal::BadHost);
    };
    if !is_ipv6_host(host) {
        return Err(AddressRefusal::BadHost);
    }
    match rest {
        [b':', port @ ..] => check_port(port),
        _ => Err(AddressRefusal::BadPort),
    }
}

fn check(text: &[u8]) -> Result<(), AddressRefusal>
    ensures { result ≡ check text.now }
{
    match text {
        [] => Err(AddressRefusal::Empty),
        [b'/', ..] => check_path(text),
        [b'[', rest @ ..] => check_bracketed(rest),
        _ => check_dotted(text),
    }
}

/// A listening address: a dotted one or an IPv6 one with a port, or the path of a Unix socket.
#[derive(Clone, Copy, Debug, PartialEq, Eq)]
pub struct Address {
    text: ShortText,
}

impl Model for Address {
    ghost use Rattle.std.specs.Prelude.{◌≡◌, ℕ, List, Ok};
    ghost use Rattle.listener_set.specs.AddressText.{reading};

    ghost Value = { List ℕ };

    ghost view = { λ a. a.text };

    ghost invariant = { λ a. reading a.text ≡ Ok a.text };

    ghost inverse = { λ text. record { text = text } };
}

impl Address {
    /// Reads an address, or gives the first rule that the text breaks. A text that begins with `/`
    /// is a path of at most 107 bytes, each graphic ASCII. One that begins with `[` is an IPv6
    /// address in brackets, in the one text that RFC 5952 gives it, and a colon and a port. It has
    /// no zone, and is not mapped from IPv4. Any other is a host, which stands before the first
    /// colon, and a port: four numbers from 0 to 255 joined by dots. A port is a number from 1 to
    /// 65535. No number has leading zeros.
    pub fn read(text: &[u8]) -> Result<Self, AddressRefusal>
        ensures exact { result ≡ reading text.now }
        ensures grammar { IsOk result ↔ IsAddress text.now }
    {
        check(text)?;
        Ok(Self::of(text))
    }

    fn of(text: &[u8]) -> Self
        requires { check text.now ≡ Ok tt }
        ensures { result ≡ text.now }
    {
        Address {
            text: ShortText::new(text),
        }
    }

    /// The address of a configuration that names none: 0.0.0.0:8080.
    pub fn plain() -> Self
        ensures { result ≡ codes "0.0.0.0:8080" }
    {
        Self::of(b"0.0.0.0:8080")
    }

    /// The text of the address.
    pub fn bytes(&self) -> &[u8]
        ensures text { result.now ≡ self.now }
        ensures is_address { reading self.now ≡ Ok self.now }
        ensures graphic { AllPass is_ascii_graphic self.now }
        ensures fits { length self.now ≤ ADDRESS_BYTES }
    {
        self.text.bytes()
    }
}
