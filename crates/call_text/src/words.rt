//! Single words: fates, replies, ends, notes and sides.
ghost use Rattle.std.specs.Prelude.{◌≡◌};
ghost use Rattle.call_text.specs.Words.{fate_text, reply_text, end_text, note_text, side_text};

use vocabulary::{End, Fate, PidNote, Reply, Side};

/// The word of a fate.
pub fn fate_text(fate: Fate) -> &'static str
    ensures { result.now ≡ fate_text fate }
{
    match fate {
        Fate::InUse => "in-use",
        Fate::TooMany => "too-many",
        Fate::Denied => "denied",
        Fate::NoMemory => "no-memory",
        Fate::Again => "again",
        Fate::Late => "late",
        Fate::NoImage => "no-image",
        Fate::Refused => "refused",
        Fate::IoFault => "io-fault",
        Fate::Back => "back",
    }
}

/// The word of a reply, as an edge of a plan has it.
pub fn reply_text(reply: Reply) -> &'static str
    ensures { result.now ≡ reply_text reply }
{
    match reply {
        Reply::Opened => "opened",
        Reply::InUse => "in-use",
        Reply::TooMany => "too-many",
        Reply::Denied => "denied",
        Reply::NoMemory => "no-memory",
        Reply::Fine => "ok",
        Reply::Forked => "forked",
        Reply::Again => "again",
        Reply::IsReady => "ready",
        Reply::Gone => "gone",
        Reply::Late => "late",
        Reply::Full => "full",
        Reply::Short => "short",
        Reply::Spawned => "spawned",
        Reply::NoImage => "no-image",
        Reply::Adopted => "adopted",
        Reply::Refused => "refused",
        Reply::IoFault => "io-fault",
        Reply::IsAlive => "alive",
        Reply::Go => "go",
        Reply::Back => "back",
        Reply::MasterGone => "master-gone",
    }
}

/// The word of a plan's end.
pub fn end_text(end: End) -> &'static str
    ensures { result.now ≡ end_text end }
{
    match end {
        End::Done => "done",
        End::RolledBack => "rolled-back",
        End::ShortOld => "degraded-old",
        End::ShortTarget => "degraded-target",
        End::Split => "split",
        End::JoinReady => "join-ready",
        End::JoinBack => "join-back",
        End::Join => "join",
    }
}

/// The word of a pid note.
pub fn note_text(note: PidNote) -> &'static str
    ensures { result.now ≡ note_text note }
{
    match note {
        PidNote::InPlace => "in-place",
        PidNote::AtOldbin => "at-oldbin",
        PidNote::OldbinLeft => "oldbin-left",
        PidNote::Left => "left",
        PidNote::NoFile => "no-file",
    }
}

/// The word of a side.
pub fn side_text(side: Side) -> &'static str
    ensures { result.now ≡ side_text side }
{
    match side {
        Side::Old => "old",
        Side::Target => "target",
    }
}
