//! The kernel that these masters run on.
use kernel_model::{Kernel, WIDEST_LIMITS};
use std::alloc::Global;
use std::test::Fail;
use vocabulary::{Limits, Settings};

/// A kernel with a master of these settings, whose process number is 100, and two workers, where so many
/// processes may be.
pub(crate) fn with_two_workers(
    alloc: Global,
    settings: &Settings,
    processes: u32,
) -> Result<Kernel, Fail> {
    let limits = Limits {
        processes,
        ..WIDEST_LIMITS
    };
    Ok(Kernel::boot(alloc, settings, 2, limits)?)
}
