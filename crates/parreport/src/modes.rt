ghost use Rattle.std.specs.Prelude.{◌≡◌};
ghost use Rattle.parreport.specs.SetSearch.{mode_of};

use parfind::Mode;

/// Returns the mode of a command, with `--tails` or without.
pub(crate) fn mode_of(tails: bool) -> Mode
    ensures { result ≡ mode_of tails }
{
    if tails { Mode::Tails } else { Mode::Plain }
}
