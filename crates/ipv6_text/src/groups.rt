//! The text of an IPv6 address: groups in hexadecimal, the longest run of zeros as `::`.
ghost use Rattle.std.specs.Prelude.{◌≡◌, ◌+◌, ◌*◌, ◌≤◌, ◌<◌, ◌++◌, length, flat_map, codes};
ghost use Rattle.std.specs.Char.{digit_char};
ghost use Rattle.std.specs.Net.Text.{leading_zero_digits, hex, groups_text, zero_run, longest_zero_run, hex_groups_text};
ghost use Rattle.ipv6_text.specs.Ipv6Text.{group_after};

use plain_text::Line;

/// The fewest zeros that `::` stands for.
const SHORTEST_RUN: usize = 2;

fn hex_digit(digit: u16) -> u8
    requires { digit < 16 }
    ensures { result ≡ digit_char digit }
{
    if digit < 10 {
        b'0' + digit as u8
    } else {
        b'a' + (digit - 10) as u8
    }
}

fn leading_zeros(group: u16) -> usize
    ensures value { result ≡ leading_zero_digits group }
    ensures some { result < 4 }
{
    match group {
        0x1000.. => 0,
        0x100.. => 1,
        0x10.. => 2,
        _ => 3,
    }
}

/// Puts a group without leading zeros behind what was written.
fn put_group(out: &mut Line, group: u16)
    requires { length out.old + 4 ≤ 4096 }
    ensures text { out.new ≡ out.old ++ hex group }
    ensures short { length (hex group) ≤ 4 }
{
    let digits = [
        hex_digit(group / 0x1000),
        hex_digit(group / 0x100 % 16),
        hex_digit(group / 0x10 % 16),
        hex_digit(group % 16),
    ];
    out.put(&digits[leading_zeros(group)..]);
}

/// Puts each group behind what was written, with a colon in front.
fn put_more(out: &mut Line, groups: &[u16])
    requires { length out.old + 5 * length groups.now ≤ 4096 }
    ensures text { out.new ≡ out.old ++ flat_map group_after groups.now }
    ensures short { length out.new ≤ length out.old + 5 * length groups.now }
{
    if let [group, rest @ ..] = groups {
        out.put(b":");
        put_group(out, *group);
        put_more(out, rest);
    }
}

/// Puts groups behind what was written, with colons between them.
fn put_groups(out: &mut Line, groups: &[u16])
    requires { length out.old + 5 * length groups.now ≤ 4096 }
    ensures text { out.new ≡ out.old ++ groups_text groups.now }
    ensures short { length out.new ≤ length out.old + 5 * length groups.now }
{
    if let [group, rest @ ..] = groups {
        put_group(out, *group);
        put_more(out, rest);
    }
}

/// The number of zeros that the groups begin with.
fn zero_run(groups: &[u16]) -> usize
    ensures value { result ≡ zero_run groups.now }
    ensures within { result ≤ length groups.now }
{
    match groups {
        [0, rest @ ..] => 1 + zero_run(rest),
        _ => 0,
    }
}

/// The start and the length of the longest run of zeros, of several the first.
fn longest_zero_run(groups: &[u16]) -> (usize, usize)
    ensures value { result ≡ longest_zero_run groups.now }
    ensures within { result.0 + result.1 ≤ length groups.now }
{
    match groups {
        [] => (0, 0),
        [_, rest @ ..] => {
            let (start, len) = longest_zero_run(rest);
            let here = zero_run(groups);
            if len <= here {
                (0, here)
            } else {
                (start + 1, len)
            }
        }
    }
}

/// The text of groups: a run of two zeros or more, the longest and of several the first, is `::`.
pub(crate) fn text_of(groups: &[u16]) -> Line
    requires { length groups.now ≡ 8 }
    ensures { result ≡ hex_groups_text groups.now }
{
    let mut out = Line::new();
    let (start, len) = longest_zero_run(groups);
    if len >= SHORTEST_RUN {
        put_groups(&mut out, &groups[..start]);
        out.put(b"::");
        put_groups(&mut out, &groups[start + len..]);
    } else {
        put_groups(&mut out, groups);
    }
    out
}
