//! Whether a process listens where a list says.
ghost use Rattle.std.specs.Prelude.{◌≡◌, ◌↔◌, IsTrue, bytes_eq, map};
ghost use Rattle.call_laws.specs.Pieces.{listener_of};
ghost use Rattle.kernel_rows.specs.Holds.{address_of, seen_holds};

use listener_set::{Address, DescriptorTable};
use vocabulary::Listener;

/// Whether a socket is of an address. One that is nobody's has an empty text.
fn is_socket_at(addresses: &[Address], socket: u32, address: &Address) -> bool
    ensures { result ≡ bytes_eq (address_of addresses.now socket) address.now }
{
    match addresses.get((socket as usize).saturating_sub(1)) {
        Some(own) => own == address,
        None => address.bytes().is_empty(),
    }
}

/// Whether the holds, in ascending descriptors, are the listeners.
pub fn are_listeners(addresses: &[Address], holds: &DescriptorTable, listeners: &[Listener]) -> bool
    ensures { IsTrue result ↔ (map listener_of (seen_holds addresses.now holds.now) ≡ listeners.now) }
{
    let mut pairs = holds.iter();
    for listener in listeners {
        let Some((descriptor, socket)) = pairs.next() else {
            return false;
        };
        if descriptor != listener.descriptor
            || !is_socket_at(addresses, socket, &listener.address)
        {
            return false;
        }
    }
    pairs.next().is_none()
}
