//! A block in one line.
use call_text::side_text;
use std::fmt;
use vocabulary::Outcome;
use word_runner::{Block, Body};
use worker_groups::Shortfalls;

/// A block in one line, as it is logged: the word and what it came to, of a run its outcome alone; or why the line is no
/// word.
#[derive(Clone, Copy)]
pub struct Summary<'a>(pub &'a Block);

impl fmt::Display for Summary<'_> {
    ghost use Rattle.std.specs.Prelude.{Some};
    ghost use Rattle.master_on_children.specs.Summaries.{block_summary};

    ghost output = { λ summary. Some (block_summary summary.0.now) };

    fn fmt<W: fmt::Write>(&self, f: &mut fmt::Formatter<W>) -> fmt::Result {
        match self.0 {
            Block::Heard(word, body) => write!(f, "{word}: {}", BodyText(body)),
            Block::Unread(refusal) => write!(f, "unread {}", refusal.code()),
        }
    }
}

/// What a word came to.
#[derive(Clone, Copy)]
struct BodyText<'a>(&'a Body);

impl fmt::Display for BodyText<'_> {
    ghost use Rattle.std.specs.Prelude.{Some};
    ghost use Rattle.master_on_children.specs.Summaries.{body_summary};

    ghost output = { λ body. Some (body_summary body.0.now) };

    fn fmt<W: fmt::Write>(&self, f: &mut fmt::Formatter<W>) -> fmt::Result {
        match self.0 {
            Body::Nothing => f.write_str("nothing"),
            Body::Refused(code) => write!(f, "refused {}", code.as_str()),
            Body::Ran(_, report) => write!(f, "{}", OutcomeText(report.outcome)),
        }
    }
}

/// An outcome, as a report says it.
#[derive(Clone, Copy)]
struct OutcomeText(Outcome);

impl fmt::Display for OutcomeText {
    ghost use Rattle.std.specs.Prelude.{Some};
    ghost use Rattle.call_text.specs.ReportText.{outcome_text};

    ghost output = { λ outcome. Some (outcome_text outcome.0) };

    fn fmt<W: fmt::Write>(&self, f: &mut fmt::Formatter<W>) -> fmt::Result {
        match self.0 {
            Outcome::Done => f.write_str("done"),
            Outcome::RolledBack => f.write_str("rolled-back"),
            Outcome::Degraded { side, shortfalls } => write!(
                f,
                "degraded {} {}",
                side_text(side),
                ShortfallsText(shortfalls)
            ),
            Outcome::Lost => f.write_str("lost"),
        }
    }
}

/// Shortfalls, as a report says them.
#[derive(Clone, Copy)]
struct ShortfallsText(Shortfalls);

impl fmt::Display for ShortfallsText {
    ghost use Rattle.std.specs.Prelude.{Some};
    ghost use Rattle.call_text.specs.ReportText.{shortfalls_text};

    ghost output = { λ shortfalls. Some (shortfalls_text shortfalls.0) };

    fn fmt<W: fmt::Write>(&self, f: &mut fmt::Formatter<W>) -> fmt::Result {
        match self.0.as_slice() {
            [first, others @ ..] => write!(f, "{first}{}", LaterText(others)),
            [] => Ok(()),
        }
    }
}

/// Numbers, each behind a comma.
#[derive(Clone, Copy)]
struct LaterText<'a>(&'a [u32]);

impl fmt::Display for LaterText<'_> {
    ghost use Rattle.std.specs.Prelude.{Some};
    ghost use Rattle.master_on_children.specs.Summaries.{later_counts};

    ghost output = { λ counts. Some (later_counts counts.0.now) };

    fn fmt<W: fmt::Write>(&self, f: &mut fmt::Formatter<W>) -> fmt::Result {
        for count in self.0 {
            write!(f, ",{count}")?;
        }
        Ok(())
    }
}
