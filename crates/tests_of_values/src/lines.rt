//! Lines: the longest texts that are put into one, and where a line ends.
use call_text::write_set;
use listener_set::Numbers;
use plain_text::{LINE_BYTES, Line, Sink, write_number};
use std::test::Fail;

/// The set with the longest text: a single number, and then pairs.
fn longest_set() -> Numbers {
    let mut set = Numbers::none();
    for number in 0..1024 {
        if number % 3 != 1 {
            set.add(number);
        }
    }
    set
}

/// A line with room for two bytes.
fn almost_full() -> Line {
    let mut line = Line::new();
    line.put(&[b'a'; LINE_BYTES - 2]);
    line
}

/// Whether a line takes neither of two texts of three bytes.
fn refuses_three_bytes(line: &mut Line) -> bool {
    !line.put(b"bcd") && !line.put_number(100)
}

#[test]
fn a_line_is_filled_to_its_last_byte(rt: HostRuntime) {
    let mut line = almost_full();
    assert!(rt; refuses_three_bytes(&mut line));
    assert!(rt; line.put_number(42));
    assert!(rt; line.is_full());
    assert!(rt; line.bytes().ends_with(b"a42"));
}

/// Writes a word, the longest number and the longest set.
fn write_longest<S: Sink>(out: &mut S) -> Result<(), S::Refusal> {
    out.put(b"at ")?;
    write_number(out, u64::MAX)?;
    write_set(out, &longest_set())
}

#[test]
fn a_vector_and_a_line_hold_the_same_text(rt: HostRuntime) -> Result<(), Fail> {
    let mut line = Line::new();
    write_longest(&mut line)?;
    let mut bytes = Vec::new(rt.alloc());
    write_longest(&mut bytes)?;
    assert!(rt; line.bytes() == bytes.as_slice());
    assert!(rt; line.bytes().len() == 3 + 20 + 2673);
    Ok(())
}
