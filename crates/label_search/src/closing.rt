//! A search whose labels are mended until they show that no route earns.

ghost use Rattle.std.specs.Prelude.{◌<◌, All, IfOk, length};
ghost use Rattle.label_search.specs.Answers.{IsClosing};

use crate::resources::{Care, Resources};
use crate::search::{copies, mend, new_search, run};
use crate::seeking::routes_of;
use completion_bounds::Completion;
use std::alloc::{AllocError, Global};

/// What a search comes to that ends with the one or the other.
#[derive(Drop)]
pub enum Closing<L: Drop, T: Drop> {
    /// Routes that earn, one at least, those that were found later behind.
    Better { routes: Vec<T> },
    /// Labels that show that no route earns.
    Closed { labels: Vec<L> },
}

/// Routes that earn, or labels that show that there is none.
///
/// It is a search whose labels are tested where it finds no route. What the test finds wanting is
/// added, whatever other labels there are, and the search goes on. The only `Err` is want of
/// memory.
pub fn close<R: Resources>(
    alloc: Global,
    resources: &R,
    table: &Completion,
    care: Care,
) -> Result<Closing<R::Label, R::Route>, AllocError>
    ensures { IfOk result (IsClosing (R.space resources.now)) }
{
    let mut search = new_search(alloc, resources, table, care)?;
    while search.routes.is_empty() {
        run(alloc, resources, &mut search)?;
        if !search.routes.is_empty() {
            break;
        }
        let labels = copies(alloc, resources, &search)?;
        let Some(fault) = resources.first_fault(alloc, &labels)? else {
            return Ok(Closing::Closed { labels });
        };
        mend(alloc, resources, &mut search, &labels, fault)?;
    }
    Ok(Closing::Better {
        routes: routes_of(resources, search),
    })
}
