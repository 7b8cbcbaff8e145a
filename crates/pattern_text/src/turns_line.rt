//! The line of a section that says whose turn it is.
ghost use Rattle.std.specs.Prelude.{◌≡◌, ◌++◌, is_some, slice_get, IfOk, IfSome};
ghost use Rattle.std.specs.List.{list_all};
ghost use Rattle.pattern_text.specs.TurnsText.{letter, letter_text, letters, turns_text, turn_for, turns_for, some_turns, turns_of};

use kernel_pattern::Turns;
use plain_text::after_prefix;
use std::alloc::{AllocError, Global};
use vocabulary::Turn;

/// Whether a line without its newline is `turns TEXT`, TEXT being one letter at least: `n` for the new master, `o` for the
/// old one. It takes no memory.
pub(crate) fn says_turns(line: &[u8]) -> bool
    ensures { result ≡ is_some (turns_of line.now) }
{
    match after_prefix(line, b"turns ") {
        Some(letters) => are_turns(letters),
        None => false,
    }
}

/// Whether there is one letter at least, and each is that of a turn.
fn are_turns(letters: &[u8]) -> bool
    ensures { result ≡ is_some (some_turns letters.now) }
{
    if letters.is_empty() {
        return false;
    }
    are_letters(letters)
}

fn are_letters(letters: &[u8]) -> bool
    ensures { result ≡ list_all (λ c. is_some (turn_for c)) letters.now }
{
    letters.iter().all(is_letter)
}

fn is_letter(letter: &u8) -> bool
    ensures { result ≡ is_some (turn_for letter.now) }
{
    turn_for(*letter).is_some()
}

fn turn_for(letter: u8) -> Option<Turn>
    ensures { result ≡ turn_for letter }
{
    match letter {
        b'n' => Some(Turn::New),
        b'o' => Some(Turn::Old),
        _ => None,
    }
}

/// The turns of a line that says some. The only refusal is out of memory.
pub(crate) fn read_turns(alloc: Global, line: &[u8]) -> Result<Turns, AllocError>
    ensures { IfOk result (λ turns. IfSome (turns_of line.now) (λ told. turns ≡ told)) }
{
    match after_prefix(line, b"turns ") {
        Some(letters) => read_letters(alloc, letters),
        None => Ok(Turns::new(alloc)),
    }
}

/// The turns of a text of one letter at least, `n` for the new master and `o` for the old one; none of any other text. The
/// only refusal is out of memory.
pub fn turns_in(alloc: Global, letters: &[u8]) -> Result<Option<Turns>, AllocError>
    ensures { IfOk result (λ found. found ≡ some_turns letters.now) }
{
    if !are_turns(letters) {
        return Ok(None);
    }
    let turns = read_letters(alloc, letters)?;
    Ok(Some(turns))
}

fn read_letters(alloc: Global, letters: &[u8]) -> Result<Turns, AllocError>
    ensures { IfOk result (λ turns. IfSome (turns_for letters.now) (λ told. turns ≡ told)) }
{
    let mut turns = Turns::new(alloc);
    for letter in letters {
        if let Some(turn) = turn_for(*letter) {
            turns.add(turn)?;
        }
    }
    Ok(turns)
}

/// Appends the line of turns with its newline; nothing where there are none. The only refusal is out of memory.
pub fn write_turns(out: &mut Vec<u8>, turns: &Turns) -> Result<(), AllocError>
    ensures { IfOk result (λ _. out.new.items ≡ out.old.items ++ turns_text turns.now) }
{
    if turns.is_empty() {
        return Ok(());
    }
    out.extend_from_slice(b"turns ")?;
    write_letters(out, turns)?;
    out.extend_from_slice(b"\n")
}

fn write_letters(out: &mut Vec<u8>, turns: &Turns) -> Result<(), AllocError>
    ensures { IfOk result (λ _. out.new.items ≡ out.old.items ++ letters turns.now) }
{
    for place in 0..turns.len() {
        write_letter(out, turns, place)?;
    }
    Ok(())
}

/// The letter of the turn at a place, where there is one.
fn write_letter(out: &mut Vec<u8>, turns: &Turns, place: usize) -> Result<(), AllocError>
    ensures { IfOk result (λ _. out.new.items ≡ out.old.items ++ letter_text (slice_get turns.now place)) }
{
    match turns.get(place) {
        Some(turn) => out.extend_from_slice(&[letter(turn)]),
        None => Ok(()),
    }
}

fn letter(turn: Turn) -> u8
    ensures { result ≡ letter turn }
{
    match turn {
        Turn::New => b'n',
        Turn::Old => b'o',
    }
}
