//! The values in a line of a handover.
ghost use Rattle.std.specs.Prelude.{◌≡◌};
ghost use Rattle.plain_text.specs.NumberText.{number_within};
ghost use Rattle.handover_text.specs.Reading.{listener_read};

use listener_set::Address;
use plain_text::{around, number_within};
use vocabulary::Listener;

/// The listener of a line: its descriptor, a space and its address.
pub(crate) fn read_listener(rest: &[u8]) -> Option<Listener>
    ensures { result ≡ listener_read rest.now }
{
    let (number, text) = around(rest, b' ');
    let descriptor = number_within(number, 3, 66)?;
    let Ok(address) = Address::read(text) else {
        return None;
    };
    Some(Listener {
        descriptor,
        address,
    })
}

/// A number of workers.
pub(crate) fn read_workers(rest: &[u8]) -> Option<u32>
    ensures { result ≡ number_within 0 1024 rest.now }
{
    number_within(rest, 0, 1024)
}
