//! A master over real children, and what lines come to.
ghost use Rattle.std.specs.Prelude.{◌≤◌, ◌≡◌, ◌∷◌, [], Some, None, IfOk};
ghost use Rattle.std.specs.Io.KnownBytes.{Keeps};
ghost use Rattle.std.specs.Option.{option_copied};
ghost use Rattle.call_laws.specs.Start.{started};
ghost use Rattle.child_edge.specs.State.{state_of};
ghost use Rattle.child_edge.specs.Edge.{begun_by};
ghost use Rattle.master_on_children.specs.Inbox.{unread};
ghost use Rattle.master_on_children.specs.Lines.{tick_words, takes_settings, AreActed, IsTicked, LineComesTo, EndComesTo};

use crate::inbox::Inbox;
use crate::said::Said;
use crate::{Attended, NextRefusal, NextSettings, OnChildren, Operator, SupervisorStart};
use child_edge::Edge;
use child_family::Family;
use control_words::{Word, WordRefusal};
use listener_set::{Numbers, WORKER_LIMIT};
use log::Log;
use service_state::Record;
use std::alloc::{AllocError, Global};
use std::io::Read;
use vocabulary::Settings;
use word_runner::{Block, Body, Standing, run_words};
use worker_table::WorkerTable;

/// A master over real children.
#[derive(Drop)]
pub(crate) struct Master<F: Family + Drop, I: Read + Drop, L: Log + Drop> {
    alloc: Global,
    /// Where it stands: the edge to its children, what it knows of itself, and its workers.
    pub(crate) standing: Standing<Attended<F, I, L>>,
}

impl<F: Family + Drop, I: Read + Drop, L: Log + Drop> Master<F, I, L> {
    /// A master that starts: as many workers are wanted as its settings say, and none is ready.
    pub(crate) fn begin(
        alloc: Global,
        family: F,
        start: &SupervisorStart,
        operator: Operator<I, L>,
        workers: WorkerTable,
    ) -> Master<F, I, L>
        requires { 1 ≤ start.now.pid }
        ensures family { result.standing.world.edge.family ≡ family }
        ensures state { state_of result.standing.world.edge.state ≡ begun_by (started start.now.settings start.now.settings.workers [] start.now.pid) }
        ensures record { result.standing.record ≡ Some (started start.now.settings start.now.settings.workers [] start.now.pid) }
        ensures workers { result.standing.workers ≡ workers }
        ensures waiting { result.standing.world.inbox.waiting ≡ [] }
        ensures open { result.standing.world.inbox.ended ≡ None }
        ensures unread { Keeps (I.remaining operator.input) (unread I.remaining result.standing.world.inbox) }
    {
        let Operator { input, log } = operator;
        let settings = &start.settings;
        let record = Record::start(settings, settings.workers, &Numbers::none(), start.pid);
        let world = Attended {
            edge: Edge::begin(alloc, family, &record),
            inbox: Inbox::new(input),
            log,
        };
        let standing = Standing {
            world,
            record: Some(record),
            workers,
        };
        Master { alloc, standing }
    }

    /// The family of its children.
    pub(crate) fn into_family(self) -> F
        ensures { result ≡ self.standing.world.edge.family }
    {
        let Master { alloc: _, standing } = self;
        let Standing {
            world,
            record: _,
            workers: _,
        } = standing;
        let Attended {
            edge,
            inbox: _,
            log: _,
        } = world;
        edge.into_family()
    }

    /// The log of the operator.
    pub(crate) fn log(&self) -> &L {
        &self.standing.world.log
    }

    /// Carries words out one after another.
    fn act(&mut self, words: &[Word], settings: Option<&Settings>) -> Said
        ensures { AreActed I.remaining (option_copied settings.entry) words.now self.old.standing result self.new.standing }
    {
        let mut blocks = Vec::new(self.alloc);
        let done = run_words(
            self.alloc,
            &OnChildren::new(),
            &mut self.standing,
            words,
            settings,
            &mut blocks,
        );
        Said { blocks, done }
    }

    /// What a line comes to that was read as a word or refused. For a word that takes the next settings up, these are read
    /// anew where a master runs.
    pub(crate) fn hear<N: NextSettings>(
        &mut self,
        line: Result<Word, WordRefusal>,
        next: &mut N,
    ) -> Said
        ensures { LineComesTo I.remaining N.reads line next.old self.old.standing result next.new self.new.standing }
    {
        let word = match line {
            Ok(Word::Tick { now }) => return self.tick(now),
            Ok(word) => word,
            Err(refusal) => return Said::unread(self.alloc, refusal),
        };
        if self.standing.record.is_none() || !takes_settings(word) {
            return self.act(&[word], None);
        }
        match next.read() {
            Ok(settings) => self.act(&[word], Some(&settings)),
            Err(NextRefusal::Unreadable) => self.act(&[word], None),
            Err(NextRefusal::Refused(code)) => {
                Said::block(self.alloc, Block::Heard(word, Body::Refused(code)))
            }
            Err(NextRefusal::Memory) => Said::short(self.alloc),
        }
    }

    /// What a tick comes to. Where a master runs, the workers of the one that reigns are asked first, and each beat
    /// that is heard is a word of its own before the tick.
    pub(crate) fn tick(&mut self, now: u64) -> Said
        ensures { IsTicked I.remaining self.old.standing.record now self.old.standing result self.new.standing }
    {
        let Some(_) = self.standing.record else {
            return self.act(&[Word::Tick { now }], None);
        };
        let heard = self.standing.world.edge.tick_reigning(now);
        match tick_words(self.alloc, &heard, now) {
            Ok(words) => self.act(&words, None),
            Err(AllocError) => Said::short(self.alloc),
        }
    }

    /// What the end of the input comes to: a master that runs quits.
    pub(crate) fn end(&mut self) -> Said
        ensures { EndComesTo I.remaining self.old.standing.record self.old.standing result self.new.standing }
    {
        match self.standing.record {
            Some(_) => self.act(&[Word::Quit], None),
            None => Said::nothing(self.alloc),
        }
    }
}

/// Whether a word takes the next settings up: a reload does, and each upgrade.
fn takes_settings(word: Word) -> bool
    ensures { result ≡ takes_settings word }
{
    matches!(word, Word::Hup | Word::Usr2 | Word::Usr2Attended)
}

/// The words of a tick: a beat for each worker that was heard, upwards in number, and then the tick.
fn tick_words(alloc: Global, heard: &Numbers, now: u64) -> Result<Vec<Word>, AllocError>
    ensures { IfOk result (λ words. words.items ≡ tick_words heard.now now) }
{
    let mut words = Vec::new(alloc);
    for nr in heard.iter() {
        words.push(Word::Beat { nr, now })?;
    }
    words.push(Word::Tick { now })?;
    Ok(words)
}
