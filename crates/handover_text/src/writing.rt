//! Writing a handover.
ghost use Rattle.std.specs.Prelude.{◌≡◌, ◌≤◌, ◌++◌, ◌∷◌, true, Ok, length, codes, IfOk};
ghost use Rattle.worker_groups.specs.Groups.{AreGroups, addresses_in};
ghost use Rattle.std.specs.Fmt.{decimal};
ghost use Rattle.std.specs.List.{flat_map, list_all};
ghost use Rattle.listener_set.specs.AddressList.{AreDistinct};
ghost use Rattle.vocabulary.specs.Settings.{HasSuffixRoom};
ghost use Rattle.handover_text.specs.Spelling.{line_of, listener_line, want_line, group_line, group_lines, pid_file_line, spelling};
ghost use Rattle.handover_text.specs.Reading.{reading, is_address};
ghost use Rattle.master_listeners.specs.Listeners.{AreListed};
ghost use Rattle.handover_text.specs.Ranges.{is_path_if};

use crate::Handover;
use listener_set::{Address, FilePath, Generation, ListenerSet};
use master_listeners::Listeners;
use plain_text::write_number;
use std::alloc::{AllocError, Global};
use vocabulary::Listener;
use worker_groups::{Group, Groups};

/// A name, with a space behind it, and a number.
fn put_named(text: &mut Vec<u8>, name: &[u8], number: u32) -> Result<(), AllocError>
    ensures { IfOk result (λ _. text.new.items ≡ text.old.items ++ name.now ++ decimal number) }
{
    text.extend_from_slice(name)?;
    write_number(text, u64::from(number))
}

/// A line of a name, with a space behind it, and a number.
fn put_numbered(text: &mut Vec<u8>, name: &[u8], number: u32) -> Result<(), AllocError>
    ensures { IfOk result (λ _. text.new.items ≡ text.old.items ++ line_of (name.now ++ decimal number)) }
{
    put_named(text, name, number)?;
    text.extend_from_slice(b"\n")
}

fn put_generation(text: &mut Vec<u8>, generation: Generation) -> Result<(), AllocError>
    ensures line { IfOk result (λ _. text.new.items ≡ text.old.items ++ line_of (codes "generation " ++ decimal generation.image ++ 32 ∷ decimal generation.config)) }
    ensures image { generation.image ≤ 4294967295 }
    ensures config { generation.config ≤ 4294967295 }
{
    put_named(text, b"generation ", generation.image)?;
    put_numbered(text, b" ", generation.config)
}

fn put_listener(text: &mut Vec<u8>, listener: &Listener) -> Result<(), AllocError>
    ensures line { IfOk result (λ _. text.new.items ≡ text.old.items ++ listener_line listener.now) }
    ensures address { IfOk result (λ _. is_address listener.now.address ≡ true) }
{
    text.extend_from_slice(b"listener ")?;
    write_number(text, u64::from(listener.descriptor))?;
    text.extend_from_slice(b" ")?;
    text.extend_from_slice(listener.address.bytes())?;
    text.extend_from_slice(b"\n")
}

fn put_listeners(text: &mut Vec<u8>, listeners: &Listeners) -> Result<(), AllocError>
    ensures lines { IfOk result (λ _. text.new.items ≡ text.old.items ++ flat_map listener_line listeners.now) }
    ensures addresses { IfOk result (λ _. list_all (λ l. is_address l.address) listeners.now ≡ true) }
    ensures listed { AreListed listeners.now }
{
    let all = listeners.as_slice();
    for listener in all {
        put_listener(text, listener)?;
    }
    Ok(())
}

fn put_want(text: &mut Vec<u8>, address: &Address) -> Result<(), AllocError>
    ensures line { IfOk result (λ _. text.new.items ≡ text.old.items ++ want_line address.now) }
    ensures address { IfOk result (λ _. is_address address.now ≡ true) }
{
    text.extend_from_slice(b"want ")?;
    text.extend_from_slice(address.bytes())?;
    text.extend_from_slice(b"\n")
}

fn put_wants(text: &mut Vec<u8>, addresses: &[Address]) -> Result<(), AllocError>
    ensures lines { IfOk result (λ _. text.new.items ≡ text.old.items ++ flat_map want_line addresses.now) }
    ensures addresses { IfOk result (λ _. list_all is_address addresses.now ≡ true) }
{
    for address in addresses {
        put_want(text, address)?;
    }
    Ok(())
}

/// A group, with its addresses.
fn put_group(text: &mut Vec<u8>, group: Group, addresses: &[Address]) -> Result<(), AllocError>
    ensures lines { IfOk result (λ _. text.new.items ≡ text.old.items ++ group_line group.workers ++ flat_map want_line addresses.now) }
    ensures addresses { IfOk result (λ _. list_all is_address addresses.now ≡ true) }
{
    put_numbered(text, b"group ", group.workers)?;
    put_wants(text, addresses)
}

/// Groups, each of which takes the next so many addresses.
fn put_groups(
    text: &mut Vec<u8>,
    groups: &Groups,
    addresses: &ListenerSet,
) -> Result<(), AllocError>
    requires { addresses_in groups.now ≡ length addresses.now }
    ensures lines { IfOk result (λ _. text.new.items ≡ text.old.items ++ group_lines groups.now addresses.now) }
    ensures addresses { IfOk result (λ _. list_all is_address addresses.now ≡ true) }
    ensures groups { AreGroups groups.now }
    ensures distinct { AreDistinct addresses.now }
    ensures most { length addresses.now ≤ 64 }
{
    let all = groups.as_slice();
    let mut rest = addresses.as_slice();
    for group in all {
        let (own, others) = rest.split_at(group.addresses as usize);
        put_group(text, *group, own)?;
        rest = others;
    }
    Ok(())
}

fn put_pid_file(text: &mut Vec<u8>, pid_file: Option<FilePath>) -> Result<(), AllocError>
    requires { HasSuffixRoom pid_file }
    ensures line { IfOk result (λ _. text.new.items ≡ text.old.items ++ pid_file_line pid_file) }
    ensures path { IfOk result (λ _. is_path_if pid_file ≡ true) }
{
    let Some(path) = pid_file else {
        return Ok(());
    };
    text.extend_from_slice(b"pid-file ")?;
    text.extend_from_slice(path.bytes())?;
    text.extend_from_slice(b"\n")
}

/// Writes a handover, as `read` reads it: with `handover 2` before it. `AllocError` where memory for the text is refused.
pub fn write(alloc: Global, handover: &Handover) -> Result<Vec<u8>, AllocError>
    ensures exact { IfOk result (λ text. text.items ≡ spelling handover.now) }
    ensures read_back { IfOk result (λ text. reading text.items ≡ Ok handover.now) }
{
    let mut text = Vec::new(alloc);
    text.extend_from_slice(b"handover 2\n")?;
    put_numbered(&mut text, b"old-pid ", handover.old_pid)?;
    put_generation(&mut text, handover.generation)?;
    put_listeners(&mut text, &handover.listeners)?;
    put_groups(&mut text, &handover.groups, &handover.want)?;
    put_pid_file(&mut text, handover.pid_file)?;
    text.extend_from_slice(b"end\n")?;
    Ok(text)
}
