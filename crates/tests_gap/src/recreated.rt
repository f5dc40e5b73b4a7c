//! What the seed and the effort of the first plan change.

use crate::files::{run_with, shelf_with, words_of};
use ev_outside::{MemoryShelf, MemorySink};
use evgap_run::{
    BranchProgress, BranchWatcher, Cause, CauseListener, Evgap, GapProgress, GapWatcher,
    JobWatcher, MoveProgress, MoveWatcher, Never, PricesProgress, PricesWatcher, RecreateProgress,
    RecreateWatcher, ScaleWatcher,
};
use level_table::instance_text;
use std::alloc::{AllocError, Global};

/// Two customers: the one can't be left for home, the other not be reached from there.
const PAIR: &str =
    r#"{"max_q":3,"css":[{"node_id":3,"cs_type":"fast"}],"breakpoints_by_type":[{"cs_type":"fast","time":[0,3],"charge":[0,3]}],"process_times":[0,0,0,0],"energy_matrix":[[0,1,9,9],[9,0,1,9],[1,9,0,9],[9,9,9,0]],"time_matrix":[[0,1,1,1],[1,0,1,1],[1,1,0,1],[1,1,1,0]]}"#;

/// Counts how often ruin and recreate tells how far it is, and keeps what the best routes cost
/// then; and the last cause that is heard.
#[derive(Drop)]
pub struct Looks {
    count: u64,
    /// A hash of the costs, in their order.
    costs: u64,
    pub cause: Option<Cause>,
}

impl Looks {
    /// Nothing was told yet.
    pub fn new() -> Looks {
        Looks {
            count: 0,
            costs: 0,
            cause: None,
        }
    }
}

impl PricesWatcher for Looks {
    fn watch_prices(&mut self, _progress: PricesProgress) {}
}

impl BranchWatcher for Looks {
    fn watch_branch(&mut self, _progress: BranchProgress) {}
}

impl MoveWatcher for Looks {
    fn watch_moves(&mut self, _progress: MoveProgress) {}
}

impl RecreateWatcher for Looks {
    fn goes_on(&mut self, progress: RecreateProgress) -> bool {
        self.count = self.count.saturating_add(1);
        if let Some(cost) = progress.cost {
            self.costs = self.costs.wrapping_mul(31).wrapping_add(cost);
        }
        true
    }
}

impl GapWatcher for Looks {
    fn watch_gap(&mut self, _progress: GapProgress) {}
}

impl ScaleWatcher for Looks {
    fn begin(&mut self, _denominator: u64) {}
}

impl CauseListener<Cause> for Looks {
    ghost heard = { λ looks. looks.cause };

    fn hear(&mut self, cause: Cause) {
        self.cause = Some(cause);
    }
}

impl JobWatcher for Looks {}

/// How often ruin and recreate tells how far it is where the words are those of a line, and what it
/// tells, as a hash.
fn looks_made(
    alloc: Global,
    line: &str,
    shelf: &mut MemoryShelf,
) -> Result<(u64, u64), AllocError> {
    let words = words_of(alloc, line)?;
    let mut out = MemorySink::new(alloc, Vec::new(alloc));
    let mut program = Evgap {
        clock: Never {},
        watcher: Looks::new(),
    };
    let _ = job_ending::run(alloc, words.as_slice(), shelf, &mut out, &mut program);
    Ok((program.watcher.count, program.watcher.costs))
}

#[test]
fn customers_without_own_routes_are_served_together(rt: HostRuntime) {
    let alloc = rt.alloc();
    for &(line, put) in &[
        ("plan A O C", "cost 3/"),
        ("plan A O C --effort 0", "alone 1\ncost none\n"),
    ] {
        let mut shelf = shelf_with(alloc, PAIR, "", "", &[]).expect(&rt, "memory");
        let ended = run_with(alloc, line, &mut shelf, &[]).expect(&rt, "memory");
        assert!(rt; ended.1.as_slice().starts_with(put.as_bytes()), "{line}");
    }
}

#[test]
fn the_effort_of_the_words_is_made(rt: HostRuntime) {
    let alloc = rt.alloc();
    let text = instance_text(alloc, 3, 6, 1).expect(&rt, "memory");
    let mut shelf = shelf_with(alloc, text.as_str(), "", "", &[]).expect(&rt, "memory");
    let (none, _) = looks_made(alloc, "plan A O C --effort 0", &mut shelf).expect(&rt, "memory");
    let (least, _) = looks_made(alloc, "plan A O C --effort 1", &mut shelf).expect(&rt, "memory");
    let (more, _) = looks_made(alloc, "plan A O C --effort 2", &mut shelf).expect(&rt, "memory");
    let (not_said, _) = looks_made(alloc, "plan A O C", &mut shelf).expect(&rt, "memory");
    assert_eq!(rt; none, 0u64);
    assert!(rt; least > 0 && more > least, "{least} {more}");
    assert!(rt; not_said > 0);
}

/// How many instances are drawn.
const INSTANCES: u64 = 4;

#[test]
fn the_seed_of_the_words_is_drawn_by(rt: HostRuntime) {
    let alloc = rt.alloc();
    let mut others = 0u64;
    for number in 0..INSTANCES {
        let text = instance_text(alloc, number, 12, 1).expect(&rt, "memory");
        let mut shelf = shelf_with(alloc, text.as_str(), "", "", &[]).expect(&rt, "memory");
        let line = "plan A O C --effort 1 --seed 1";
        let first = looks_made(alloc, line, &mut shelf).expect(&rt, "memory");
        let same = looks_made(alloc, "plan A O C --effort 1", &mut shelf).expect(&rt, "memory");
        assert!(rt; first.0 == same.0 && first.1 == same.1, "instance {number}");
        let line = "plan A O C --effort 1 --seed 2";
        let other = looks_made(alloc, line, &mut shelf).expect(&rt, "memory");
        others = others.saturating_add(u64::from(first.0 != other.0 || first.1 != other.1));
    }
    assert!(rt; others > 0, "another seed draws the same");
}
