//! Texts of calls.
ghost use Rattle.std.specs.Prelude.{◌≡◌, ◌<◌, ◌≤◌, ◌++◌, ◌∷◌, length, codes, IfOk};
ghost use Rattle.std.specs.Fmt.{decimal};
ghost use Rattle.plain_text.specs.Kept.{kept};
ghost use Rattle.call_text.specs.CallText.{worker_text, forked_text, missing_text, group_part, fork_missing, master_text, call_text, call_line, order_text, order_line};
ghost use Rattle.listener_set.specs.GenerationText.{generation_text};

use crate::sets::write_set;
use listener_set::{DescriptorSet, FilePath, Generation};
use plain_text::{LINE_BYTES, Line, Sink, write_number};
use vocabulary::{Actor, Call, Order};
use worker_groups::{Crew, Posts};

/// A verb and a text that it is about.
#[tactic(auto, using(plain_text::proofs::KeptTexts::kept_on))]
fn write_about<S: Sink>(out: &mut S, verb: &str, text: &[u8]) -> Result<(), S::Refusal>
    ensures { IfOk result (λ _. S.text out.new ≡ kept S.most (S.text out.old ++ (verb.now ++ text.now))) }
{
    out.put(verb.as_bytes())?;
    out.put(text)
}

/// A verb and two paths.
#[tactic(auto, using(plain_text::proofs::KeptTexts::kept_on))]
fn write_paths<S: Sink>(
    out: &mut S,
    verb: &str,
    from: &FilePath,
    to: &FilePath,
) -> Result<(), S::Refusal>
    ensures text { IfOk result (λ _. S.text out.new ≡ kept S.most (S.text out.old ++ (verb.now ++ (from.now ++ 32 ∷ to.now)))) }
    ensures short { IfOk result (λ _. length (from.now ++ 32 ∷ to.now) ≤ 215) }
{
    write_about(out, verb, from.bytes())?;
    write_about(out, " ", to.bytes())
}

/// A verb and a generation.
#[tactic(auto, using(plain_text::proofs::KeptTexts::kept_on))]
fn write_generation<S: Sink>(
    out: &mut S,
    verb: &str,
    generation: Generation,
) -> Result<(), S::Refusal>
    ensures text { IfOk result (λ _. S.text out.new ≡ kept S.most (S.text out.old ++ (verb.now ++ generation_text generation))) }
    ensures short { IfOk result (λ _. length (generation_text generation) ≤ 41) }
{
    out.put(verb.as_bytes())?;
    generation.write(out)
}

/// A verb and the worker that it is about.
#[tactic(auto, using(plain_text::proofs::KeptTexts::kept_on))]
fn write_named<S: Sink>(
    out: &mut S,
    verb: &str,
    generation: Generation,
    nr: u32,
) -> Result<(), S::Refusal>
    ensures text { IfOk result (λ _. S.text out.new ≡ kept S.most (S.text out.old ++ (verb.now ++ worker_text generation nr))) }
    ensures short { IfOk result (λ _. length (worker_text generation nr) ≤ 62) }
{
    out.put(verb.as_bytes())?;
    generation.write(out)?;
    out.put(b" ")?;
    write_number(out, u64::from(nr))
}

/// A fork: the new worker, and the descriptors that it gets where there is a set of them.
#[tactic(auto, using(plain_text::proofs::KeptTexts::kept_on))]
fn write_fork<S: Sink>(
    out: &mut S,
    generation: Generation,
    nr: u32,
    set: Option<DescriptorSet>,
) -> Result<(), S::Refusal>
    ensures text { IfOk result (λ _. S.text out.new ≡ kept S.most (S.text out.old ++ (codes "fork " ++ forked_text generation nr set))) }
    ensures short { IfOk result (λ _. length (forked_text generation nr set) ≤ 3655) }
{
    write_named(out, "fork ", generation, nr)?;
    match set {
        None => Ok(()),
        Some(set) => {
            out.put(b" fds ")?;
            write_set(out, &set.numbers())
        }
    }
}

/// A verb and the worker of a settle, which has no number before the plan runs.
#[tactic(auto, using(plain_text::proofs::KeptTexts::kept_on))]
fn write_missing<S: Sink>(out: &mut S, verb: &str, generation: Generation) -> Result<(), S::Refusal>
    ensures { IfOk result (λ _. S.text out.new ≡ kept S.most (S.text out.old ++ missing_text verb.now generation)) }
{
    out.put(verb.as_bytes())?;
    generation.write(out)?;
    out.put(b" missing")
}

/// What stands behind the fork of a settle: where there are several groups, the worker gets the descriptors of its own.
fn group_part(posts: &Posts) -> &'static str
    ensures { result.now ≡ group_part posts.now }
{
    if posts.is_sole() { "" } else { " fds group" }
}

#[tactic(auto, using(plain_text::proofs::KeptTexts::kept_on))]
fn write_fork_missing<S: Sink>(out: &mut S, crew: &Crew) -> Result<(), S::Refusal>
    ensures { IfOk result (λ _. S.text out.new ≡ kept S.most (S.text out.old ++ fork_missing crew.now)) }
{
    write_missing(out, "fork ", crew.generation)?;
    out.put(group_part(&crew.posts).as_bytes())
}

/// A verb and a number.
#[tactic(auto, using(plain_text::proofs::KeptTexts::kept_on))]
fn write_numbered<S: Sink>(out: &mut S, verb: &str, number: u32) -> Result<(), S::Refusal>
    ensures text { IfOk result (λ _. S.text out.new ≡ kept S.most (S.text out.old ++ (verb.now ++ decimal number))) }
    ensures short { IfOk result (λ _. length (decimal number) ≤ 20) }
{
    out.put(verb.as_bytes())?;
    write_number(out, u64::from(number))
}

/// A call without its master.
fn write_verb<S: Sink>(out: &mut S, call: &Call) -> Result<(), S::Refusal>
    ensures text { IfOk result (λ _. S.text out.new ≡ kept S.most (S.text out.old ++ call_text call.now)) }
    ensures short { IfOk result (λ _. length (call_text call.now) ≤ 3660) }
{
    match call {
        Call::OpenAt(address) => write_about(out, "open ", address.bytes()),
        Call::CloseAt(address) => write_about(out, "close ", address.bytes()),
        Call::Fork(generation, nr, set) => write_fork(out, *generation, *nr, *set),
        Call::AwaitReady(generation, nr) => write_named(out, "await-ready ", *generation, *nr),
        Call::Quit(generation, nr) => write_named(out, "quit ", *generation, *nr),
        Call::Kill(generation, nr) => write_named(out, "kill ", *generation, *nr),
        Call::Census(generation) => write_generation(out, "census ", *generation),
        Call::AwaitGone(generation, nr) => write_named(out, "await-gone ", *generation, *nr),
        Call::SpawnMaster(image) => write_numbered(out, "spawn-master ", *image),
        Call::Adopt => out.put(b"adopt"),
        Call::WritePid(path) => write_about(out, "write-pid ", path.bytes()),
        Call::MovePid(from, to) => write_paths(out, "move-pid ", from, to),
        Call::RemovePid(path) => write_about(out, "remove-pid ", path.bytes()),
        Call::Alive(image) => write_numbered(out, "alive ", *image),
        Call::Leave => out.put(b"leave"),
        Call::Usr1(generation, nr) => write_named(out, "usr1 ", *generation, *nr),
        Call::TermMaster(image) => write_numbered(out, "term-master ", *image),
        Call::Ask(question) => write_numbered(out, "ask ", *question),
    }
}

/// Puts a master behind what was written: `m` and the number of its image.
#[tactic(auto, using(plain_text::proofs::KeptTexts::kept_on))]
fn write_master<S: Sink>(out: &mut S, by: Actor) -> Result<(), S::Refusal>
    ensures text { IfOk result (λ _. S.text out.new ≡ kept S.most (S.text out.old ++ master_text by)) }
    ensures short { IfOk result (λ _. length (master_text by) ≤ 21) }
{
    out.put(b"m")?;
    write_number(out, u64::from(by.0))
}

/// Puts a call behind what was written, without a newline: the master that makes it, and what it
/// asks for.
pub(crate) fn put_call<S: Sink>(out: &mut S, by: Actor, call: &Call) -> Result<(), S::Refusal>
    ensures text { IfOk result (λ _. S.text out.new ≡ kept S.most (S.text out.old ++ call_line by call.now)) }
    ensures short { IfOk result (λ _. length (call_line by call.now) ≤ 3700) }
{
    write_master(out, by)?;
    out.put(b" ")?;
    write_verb(out, call)
}

/// Makes a line of a call, without a newline, for which it leaves room: the master that makes it,
/// and what it asks for. What the line held is lost.
pub fn write_call(by: Actor, call: &Call, line: &mut Line)
    ensures text { line.new ≡ call_line by call.now }
    ensures room { length line.new < LINE_BYTES }
{
    line.clear();
    match put_call(line, by, call) {
        Ok(()) => (),
    }
}

/// What a step asks for.
fn write_step<S: Sink>(out: &mut S, order: &Order) -> Result<(), S::Refusal>
    ensures { IfOk result (λ _. S.text out.new ≡ kept S.most (S.text out.old ++ order_text order.now)) }
{
    match order {
        Order::Make(call) => write_verb(out, call),
        Order::ForkLacking(crew) => write_fork_missing(out, crew),
        Order::AwaitLacking(generation) => write_missing(out, "await-ready ", *generation),
        Order::KillLacking(generation) => write_missing(out, "kill ", *generation),
    }
}

/// Puts a step of a plan behind what was written, without a newline: the master that makes it, and
/// what it asks for. A worker of a settle has the word `missing` in place of its number, and `group` in place of the
/// descriptors that it gets, where there are several groups.
pub fn write_order<S: Sink>(out: &mut S, by: Actor, order: &Order) -> Result<(), S::Refusal>
    ensures { IfOk result (λ _. S.text out.new ≡ kept S.most (S.text out.old ++ order_line by order.now)) }
{
    write_master(out, by)?;
    out.put(b" ")?;
    write_step(out, order)
}
