//! What is alike in all jobs, whichever program does them: files are read in their order, an answer
//! is found, files are written, and a text is put.
//!
//! A job is seen as a task (`specs/Task.antt`): which files it reads, what it answers to their
//! bytes, and when it comes to the next of them. What is owed for a task is stated once
//! (`specs/Performs.antt`) and proved once (`proofs/Performed.antt`): a command finds what it
//! answers (`Finds`), by [`read_file`], and [`conclude`] does the rest. One that writes before it
//! seeks its answer calls [`put_answer`] behind its own writes (`performs_put`).
//!
//! Beside that the steps that many jobs begin and end with: how much of a file is read
//! (`caps.rt`), an instance with the limit of the words (`instance.rt`), the line of a refusal
//! (`answer.rt`), why an answer isn't the one that was asked for, as a value of the program, and
//! who hears it (`cause.rt`), the two files of a search (`planned.rt`), and who is told by what a
//! job's times are scaled (`scale.rt`).
#![tactic(auto)]

mod answer;
mod asking;
mod caps;
mod cause;
mod concluding;
mod found;
mod instance;
mod planned;
mod reading;
mod scale;
mod status;

pub use answer::{Ended, refuse, refuse_job};
pub use asking::ask_file;
pub use caps::{MOST_BYTES, MOST_CERTIFICATE_BYTES};
pub use cause::{CauseListener, JobCause};
pub use concluding::{conclude, put_answer};
pub use found::{Answer, Found, NewFile};
pub use instance::limited_instance;
pub use planned::Planned;
pub use reading::read_file;
pub use scale::ScaleWatcher;
pub use status::Status;
