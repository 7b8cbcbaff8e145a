//! What the options of a subcommand say of the master on the modelled kernel.
ghost use Rattle.std.specs.Prelude.{◌≡◌};

use command_line::StartOptions;
use master_on_kernel::StartSetup;

/// What options say of a start.
pub fn setup_of<'a>(options: &StartOptions<'a>) -> StartSetup<'a>
    ensures from { result.from ≡ options.now.from }
    ensures to { result.to ≡ options.now.to }
    ensures workers { result.workers ≡ options.now.workers }
    ensures bare { result.bare ≡ options.now.bare }
{
    StartSetup {
        from: options.from,
        to: options.to,
        workers: options.workers,
        bare: options.bare,
    }
}
