ghost use Rattle.std.specs.Prelude.{◌≡◌};
ghost use Rattle.std.specs.List.{list_all};
ghost use Rattle.parreport.specs.States.{is_complete};
ghost use Rattle.parreport.specs.VerifyText.{status_from};

use crate::states::State;
use crate::status::Status;

/// Returns the status of files in these states, if `need` slices are needed and there are `have`
/// exponents.
pub fn status_from(states: &[State], need: usize, have: u32) -> Status
    ensures { result ≡ status_from states.now need have }
{
    if are_complete(states) {
        Status::Complete
    } else if need <= have as usize {
        Status::Possible
    } else {
        Status::Impossible
    }
}

// Whether every file is complete.
fn are_complete(states: &[State]) -> bool
    ensures { result ≡ list_all is_complete states.now }
{
    states.iter().all(|state| state.is_complete())
}
