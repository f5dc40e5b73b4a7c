//! Who tells people how far a long job is.

use crate::meaning::told_in_front;
use crate::progress::{MovesLine, PricesLine, RoundsLine, SearchLine};
use command_line::Job;
use evroute_run::{
    Cause, CauseListener, JobWatcher, MoveProgress, MoveWatcher, PriceProgress, PriceWatcher,
    Progress, RisingProgress, RoundProgress, RoundWatcher, ScaleWatcher, Watcher,
};
use job_listeners::Pace;
use std::alloc::Global;
use std::io::Eprint;
use std::rt::{Clock, Files};

/// Tells people on standard error how far a job is, a line at a time: the first 3 seconds behind
/// its beginning, and none within a second of another. Nothing is told, and nothing else changes,
/// where the clock or standard error fails.
#[derive(Drop)]
pub struct ToldProgress<'a, R: Clock + Eprint, F: Files> {
    alloc: Global,
    rt: &'a R,
    files: &'a F,
    /// When the next line is due, where any is told.
    pace: Option<Pace>,
    denominator: u64,
    /// What the first line of the answer tells, where it isn't what was asked for.
    cause: Option<Cause>,
}

impl<'a, R: Clock + Eprint, F: Files> ToldProgress<'a, R, F> {
    /// What begins now is told, where it is wanted, over this clock and standard error; and which of
    /// these files can't be written, in any case.
    pub fn new(alloc: Global, rt: &'a R, files: &'a F, is_wanted: bool) -> Self {
        let pace = match rt.monotonic() {
            Ok(now) if is_wanted => Some(Pace::beginning(now)),
            _ => None,
        };
        ToldProgress {
            alloc,
            rt,
            files,
            pace,
            denominator: 1,
            cause: None,
        }
    }

    /// Why the answer isn't the one that was asked for, where it was heard so.
    pub fn cause(&self) -> Option<Cause> {
        self.cause
    }

    /// Whether a line is due now.
    fn is_due(&mut self) -> bool {
        let Some(pace) = &mut self.pace else {
            return false;
        };
        match self.rt.monotonic() {
            Ok(now) => pace.is_due(now),
            Err(_) => false,
        }
    }
}

impl<'a, R: Clock + Eprint, F: Files> Watcher for ToldProgress<'a, R, F> {
    fn watch(&mut self, progress: Progress) {
        if self.is_due() {
            let _ = self.rt.eprintln(SearchLine {
                progress,
                denominator: self.denominator,
            });
        }
    }
}

impl<'a, R: Clock + Eprint, F: Files> PriceWatcher for ToldProgress<'a, R, F> {
    fn watch_prices(&mut self, progress: PriceProgress) {
        if self.is_due() {
            let _ = self.rt.eprintln(PricesLine {
                progress,
                denominator: self.denominator,
            });
        }
    }
}

impl<'a, R: Clock + Eprint, F: Files> MoveWatcher for ToldProgress<'a, R, F> {
    fn watch_moves(&mut self, progress: MoveProgress) {
        if self.is_due() {
            let _ = self.rt.eprintln(MovesLine {
                progress,
                denominator: self.denominator,
            });
        }
    }
}

impl<'a, R: Clock + Eprint, F: Files> RoundWatcher for ToldProgress<'a, R, F> {
    fn watch_rounds(&mut self, progress: RoundProgress) {
        if self.is_due() {
            let _ = self.rt.eprintln(RoundsLine {
                progress,
                denominator: self.denominator,
            });
        }
    }

    fn watch_rising(&mut self, progress: RisingProgress) {
        let RisingProgress {
            customers,
            fixed,
            bound,
        } = progress;
        self.watch_prices(PriceProgress {
            customers,
            fixed,
            bound,
        });
    }
}

impl<'a, R: Clock + Eprint, F: Files> ScaleWatcher for ToldProgress<'a, R, F> {
    fn begin(&mut self, denominator: u64) {
        self.denominator = denominator;
    }
}

impl<'a, R: Clock + Eprint, F: Files> CauseListener<Cause> for ToldProgress<'a, R, F> {
    ghost heard = { λ told. told.cause };

    fn hear(&mut self, cause: Cause) {
        self.cause = Some(cause);
    }
}

impl<'a, R: Clock + Eprint, F: Files> JobWatcher for ToldProgress<'a, R, F> {
    // The search goes on where a file can't be written: what becomes of it is for the files to say.
    fn watch_job(&mut self, job: &Job) {
        if let Ok(Some(told)) = told_in_front(self.alloc, self.files, job) {
            let _ = eprintln!(self.rt; "evroute: {told}");
        }
    }
}
