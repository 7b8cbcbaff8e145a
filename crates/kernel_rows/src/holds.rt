//! Holds: sockets by their numbers, and the addresses behind them.
ghost use Rattle.std.specs.Prelude.{◌≡◌, List, bytes_eq};
ghost use Rattle.definitions.specs.Table.{Address as Text, has_address};
ghost use Rattle.definitions.specs.Calls.{shared};
ghost use Rattle.call_laws.specs.Pieces.{lacks_address};
ghost use Rattle.kernel_rows.specs.Holds.{address_of, seen_holds};

use listener_set::{Address, DescriptorSet, DescriptorTable};

/// The text of a socket's address. Each socket that is held has one.
pub fn text_of(addresses: &[Address], socket: u32) -> &[u8]
    ensures { result.now ≡ address_of addresses.now socket }
{
    match addresses.get((socket as usize).saturating_sub(1)) {
        Some(address) => address.bytes(),
        None => &[],
    }
}

/// Whether a socket is of an address.
fn is_at(addresses: &[Address], socket: u32, address: &Address) -> bool
    ensures { result ≡ bytes_eq (address_of addresses.now socket) address.now }
{
    text_of(addresses, socket) == address.bytes()
}

/// Whether one of the holds is of the address.
pub fn has_address(addresses: &[Address], holds: &DescriptorTable, address: &Address) -> bool
    ensures { result ≡ has_address address.now (seen_holds addresses.now holds.now) }
{
    holds
        .iter()
        .any(|(_, socket)| is_at(addresses, socket, address))
}

/// The holds that are not of the address.
pub fn without_address(
    addresses: &[Address],
    holds: &DescriptorTable,
    address: &Address,
) -> DescriptorTable
    ensures { seen_holds addresses.now result ≡ lacks_address address.now (seen_holds addresses.now holds.now) }
{
    let mut rest = *holds;
    for (descriptor, socket) in holds.iter() {
        if is_at(addresses, socket, address) {
            rest.take(descriptor);
        }
    }
    rest
}

/// The holds that a worker is given: those of the descriptors, or all.
#[tactic(auto, using(crate::proofs::Closing::seen_only))]
pub fn shared(holds: &DescriptorTable, descriptors: Option<DescriptorSet>) -> DescriptorTable
    ensures { (addresses : List Text) → seen_holds addresses result ≡ shared descriptors (seen_holds addresses holds.now) }
{
    match descriptors {
        Some(set) => holds.only(&set),
        None => *holds,
    }
}
