//! Rows, holds and files of a kernel, one at a time.
ghost use Rattle.std.specs.Prelude.{◌≡◌, ◌+◌, ◌-◌, length, map, slice_get};
ghost use Rattle.std.specs.Option.{option_map};
ghost use Rattle.std.specs.List.{AllByRecursion};
ghost use Rattle.kernel_rows.specs.Seen.{seen_holder, seen_rows};
ghost use Rattle.kernel_table.specs.Room.{HasSockets};
ghost use Rattle.kernel_model.specs.Readers.{holds_in};

use crate::Kernel;
use kernel_rows::{Holder, Holders, Row};
use kernel_table::FileRow;
use listener_set::{Address, DescriptorTable};

/// A socket that a process holds.
#[derive(Clone, Copy, Debug)]
pub struct HoldRow {
    /// The number of the process.
    pub process: u32,
    /// From 3 to 66.
    pub descriptor: u32,
    /// Counted from 1.
    pub socket: u32,
    pub address: Address,
}

fn row_at(holders: &Holders, i: usize) -> Option<Row>
    ensures { result ≡ option_map (λ h. h.row) (slice_get holders.now.items i) }
{
    let holder = holders.get(i)?;
    Some(holder.row)
}

/// The i-th descriptor of a table, counted from 0, with its socket.
fn pair_at(holds: &DescriptorTable, i: usize) -> Option<(u32, u32)>
    ensures { result ≡ slice_get holds.now i }
{
    holds.iter().nth(i)
}

/// The address of a socket.
fn address_at(addresses: &[Address], socket: u32) -> Option<Address>
    ensures { result ≡ slice_get addresses.now (socket - 1) }
{
    addresses.get((socket as usize).saturating_sub(1)).copied()
}

/// The i-th file, counted from 0.
fn file_at(files: &[FileRow], i: usize) -> Option<FileRow>
    ensures { result ≡ slice_get files.now i }
{
    files.get(i).copied()
}

/// The i-th hold of a process, counted from 0.
fn hold_at(holder: &Holder, addresses: &[Address], i: usize) -> Option<HoldRow>
    requires { HasSockets (length addresses.now + 1) (seen_holder addresses.now holder.now) }
    ensures { result ≡ slice_get (holds_in (seen_holder addresses.now holder.now)) i }
{
    let (descriptor, socket) = pair_at(&holder.holds, i)?;
    let address = address_at(addresses, socket)?;
    Some(HoldRow {
        process: holder.row.number(),
        descriptor,
        socket,
        address,
    })
}

impl HoldRow {
    ghost use Rattle.kernel_model.specs.Readers.{hold_rows};

    /// The i-th hold of all processes, counted from 0.
    fn of_all(holders: &Holders, addresses: &[Address], i: usize) -> Option<Self>
        requires { AllByRecursion (HasSockets (length addresses.now + 1)) (seen_rows addresses.now holders.now.items) }
        ensures { result ≡ slice_get (hold_rows (seen_rows addresses.now holders.now.items)) i }
    {
        let mut rest = i;
        for holder in holders.iter() {
            let count = holder.holds.len();
            if rest < count {
                return hold_at(holder, addresses, rest);
            }
            rest -= count;
        }
        None
    }
}

impl Kernel {
    ghost use Rattle.kernel_model.specs.Readers.{row_of, hold_rows, file_row};

    /// The i-th process, counted from 0, in ascending process numbers.
    pub fn row(&self, i: usize) -> Option<Row>
        ensures { result ≡ slice_get (map row_of self.now.table.rows) i }
    {
        row_at(&self.store.holders, i)
    }

    /// The i-th hold, counted from 0, in ascending process numbers and, of a process, descriptors.
    pub fn hold(&self, i: usize) -> Option<HoldRow>
        ensures { result ≡ slice_get (hold_rows self.now.table.rows) i }
    {
        HoldRow::of_all(&self.store.holders, &self.store.addresses, i)
    }

    /// The i-th file, counted from 0.
    pub fn file(&self, i: usize) -> Option<FileRow>
        ensures { result ≡ slice_get (map file_row self.now.table.files) i }
    {
        file_at(&self.store.files, i)
    }
}
