//! Whether the files can be written that are asked for.

ghost use Rattle.std.specs.Prelude.{◌≡◌, Some, option_map, string_bytes};
ghost use Rattle.evview_run.specs.ViewAnswer.{IsOut};
ghost use Rattle.job_frame.specs.Asks.{Asks};
ghost use Rattle.view_words.specs.JobValue.{view_value};

use ev_outside::{Shelf, ShelfFault};
use job_frame::ask_file;
use view_words::ViewWords;

/// Asks of each file that is asked for whether it can be written, until one can't be.
pub fn ask_files<S: Shelf>(job: &ViewWords, shelf: &mut S) -> Result<(), ShelfFault>
    ensures { Asks (IsOut (view_value job.now)) (S.state shelf.old) (S.state shelf.new) result }
{
    ask_named(&job.svg, shelf)?;
    ask_named(&job.json, shelf)?;
    ask_named(&job.csv, shelf)?;
    ask_named(&job.map, shelf)
}

/// Asks whether a file can be written, where one is named.
fn ask_named<S: Shelf>(name: &Option<String>, shelf: &mut S) -> Result<(), ShelfFault>
    ensures { Asks (λ asked. option_map (λ n. string_bytes n) name.now ≡ Some asked)
        (S.state shelf.old) (S.state shelf.new) result }
{
    match name {
        Some(name) => ask_file(name.as_str(), shelf),
        None => Ok(()),
    }
}
