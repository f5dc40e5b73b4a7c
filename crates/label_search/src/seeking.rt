//! What a search finds that comes to its end.

ghost use Rattle.std.specs.Prelude.{◌≡◌, All, IfOk};
ghost use Rattle.label_search.specs.Answers.{IsSought};
ghost use Rattle.label_search.specs.Tree.{IsSearch};

use crate::resources::{Care, Resources};
use crate::search::{Search, copies, new_search, run};
use completion_bounds::Completion;
use std::alloc::{AllocError, Global};

/// What a search comes to.
#[derive(Drop)]
pub struct Sought<L: Drop, T: Drop> {
    /// Routes that earn, those that were found later behind.
    pub routes: Vec<T>,
    /// Where there is no route, the labels that were taken and that no other made needless.
    pub labels: Vec<L>,
}

/// Routes that earn, as a search finds them that leaves out what can't earn by a table: none says
/// nothing. The only `Err` is want of memory.
pub fn seek<R: Resources>(
    alloc: Global,
    resources: &R,
    table: &Completion,
    care: Care,
) -> Result<Vec<R::Route>, AllocError>
    ensures { IfOk result (λ routes. All (R.space resources.now).is_route routes.items) }
{
    let mut search = new_search(alloc, resources, table, care)?;
    run(alloc, resources, &mut search)?;
    Ok(routes_of(resources, search))
}

/// The same with the labels, where no route is found.
pub fn seek_labels<R: Resources>(
    alloc: Global,
    resources: &R,
    table: &Completion,
    care: Care,
) -> Result<Sought<R::Label, R::Route>, AllocError>
    ensures { IfOk result (IsSought (R.space resources.now)) }
{
    let mut search = new_search(alloc, resources, table, care)?;
    run(alloc, resources, &mut search)?;
    let labels = if search.routes.is_empty() {
        copies(alloc, resources, &search)?
    } else {
        Vec::new(alloc)
    };
    Ok(Sought {
        routes: routes_of(resources, search),
        labels,
    })
}

/// The routes that a search found.
pub(crate) fn routes_of<R: Resources>(
    resources: &R,
    search: Search<'_, R::Label, R::Route>,
) -> Vec<R::Route>
    requires { IsSearch (R.space resources.now) search }
    ensures same { result.items ≡ search.entry.routes.items }
    ensures earn { All (R.space resources.now).is_route result.items }
{
    let _ = resources;
    let Search {
        care: _,
        table: _,
        tree: _,
        queue: _,
        listed: _,
        routes,
        homes: _,
        gain: _,
    } = search;
    routes
}
