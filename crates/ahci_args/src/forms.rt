//! The flags of a run, of which one at most is given.
ghost use Rattle.std.specs.Prelude.{◌≡◌};
ghost use Rattle.ahci_args.specs.Usage.{form_by};

use crate::run_form::RunForm;

/// The form that the flags ask for: `json`, `journal` and `image`. None where two of them are given.
pub(crate) fn form_by(json: bool, journal: bool, image: bool) -> Option<RunForm>
    ensures { result ≡ form_by json journal image }
{
    match (json, journal, image) {
        (false, false, false) => Some(RunForm::Text),
        (true, false, false) => Some(RunForm::Json),
        (false, true, false) => Some(RunForm::Journal),
        (false, false, true) => Some(RunForm::Image),
        _ => None,
    }
}
