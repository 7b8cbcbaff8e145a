//! Which moment of a run kills an executing master.
ghost use Rattle.std.specs.Prelude.{◌≡◌, ◌∷◌, []};
ghost use Rattle.std.specs.List.{list_any};
ghost use Rattle.definitions.specs.Claims.{is_leave_call};
ghost use Rattle.kernel_model.specs.Pattern.{moment_at};
ghost use Rattle.definitions.specs.Claims.{names_any, refused_among};
ghost use Rattle.call_laws.specs.Pieces.{executing_at, executing_after};
ghost use Rattle.plan_executor.specs.Naming.{is_exit_of, listed};

use kernel_model::Pattern;
use plan_walk::Transcript;
use vocabulary::{Call, Name};

/// The first moment of these calls in which an executing master exits: the one of the image up to its Leave, and from
/// it on the heir. Where there is no heir, nobody executes after the Leave.
pub(crate) fn refused_among(
    pattern: &Pattern,
    image: u32,
    heir: Option<u32>,
    log: &Transcript,
) -> Option<u32>
    ensures { result ≡ refused_among (image ∷ []) (listed heir) (moment_at pattern.now) 0 log.now.entries }
{
    let mut executing = Some(image);
    for place in 0..log.len() {
        let entry = log.get(place);
        let number = place as u32 + 1;
        if names_executing(pattern.moment(number).exits, &entry.call, executing, heir) {
            return Some(number);
        }
        executing = executing_after(&entry.call, executing, heir);
    }
    None
}

/// Whether a master exits that executes at the call: both do where the one leaves and the other takes over.
pub fn names_executing(
    exits: &[Name],
    call: &Call,
    executing: Option<u32>,
    heir: Option<u32>,
) -> bool
    ensures { result ≡ names_any (executing_at call.now (listed executing) (listed heir)) exits.now }
{
    names_master(exits, executing) || (is_leave(call) && names_master(exits, heir))
}

/// Who executes after the call.
pub fn executing_after(call: &Call, executing: Option<u32>, heir: Option<u32>) -> Option<u32>
    ensures { listed result ≡ executing_after call.now (listed executing) (listed heir) }
{
    if is_leave(call) { heir } else { executing }
}

fn is_leave(call: &Call) -> bool
    ensures { result ≡ is_leave_call call.now }
{
    matches!(call, Call::Leave)
}

fn names_master(exits: &[Name], image: Option<u32>) -> bool
    ensures { result ≡ names_any (listed image) exits.now }
{
    match image {
        Some(image) => names_image(exits, image),
        None => false,
    }
}

fn names_image(exits: &[Name], image: u32) -> bool
    ensures { result ≡ list_any (is_exit_of image) exits.now }
{
    exits.iter().any(|name| is_exit_of(name, image))
}

fn is_exit_of(name: &Name, image: u32) -> bool
    ensures { result ≡ is_exit_of image name.now }
{
    match name {
        Name::Master(gone) => image == *gone,
        Name::Worker(..) | Name::Draining(..) => false,
    }
}
