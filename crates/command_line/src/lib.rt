//! The words of the command line, and the job that they name.
#![tactic(auto)]

ghost use Rattle.std.specs.Prelude.{◌≡◌, [], None, Ok, IfOk, IfSome, map, option_map, string_bytes};
ghost use Rattle.command_line.specs.JobValue.{IsJob, job_value};
ghost use Rattle.command_line.specs.Usage.{usage_text};
ghost use Rattle.command_line.specs.Words.{job_of};

mod arguments;
mod bound;
mod check;
mod convert;
mod fixed;
mod fleet;
mod improve;
mod laws;
mod make;
mod matches;
mod mixed;
mod proof;

use arguments::{PROGRAM, found_in};
use call_words::named;
pub use laws::words_are_read_as_they_stand;
use matches::job_in;
use std::alloc::{AllocError, Global};

/// The options of `fixed`, `prove` and `check-route`.
#[derive(Clone, Copy, Debug, Drop, PartialEq, Eq)]
pub struct Options {
    /// The limit on the route's time in place of the instance's, in units of time.
    pub limit: Option<u64>,
    /// The level at which the vehicle starts in place of a full battery, in units of charge.
    pub charge: Option<u64>,
}

/// The words of the job `fixed`: the file, the word of the route, and the options.
#[derive(Debug, Drop, PartialEq, Eq)]
pub struct FixedWords {
    pub file: String,
    pub route: String,
    pub options: Options,
}

/// The words of the job `fleet`: the file of the instance, another one into which the plan is
/// written, a third one for the certificate, the limit on the time of each route in place of the
/// instance's, in units of time, and how many nodes of its tree the search may look at, at least
/// one; where none is given, as many as it takes.
#[derive(Debug, Drop, PartialEq, Eq)]
pub struct FleetWords {
    pub file: String,
    pub plan: String,
    pub cert: String,
    pub limit: Option<u64>,
    pub nodes: Option<u64>,
}

/// The words of the job `check`: the file of the instance, another one with the plan, a third one
/// with the certificate, and the limit on the time of each route in place of the instance's, in
/// units of time.
#[derive(Debug, Drop, PartialEq, Eq)]
pub struct CheckWords {
    pub file: String,
    pub plan: String,
    pub cert: String,
    pub limit: Option<u64>,
}

/// The words of the job `convert`: the file that is read, another one that is written, and how many
/// decimal digits of times and of energies become whole.
#[derive(Debug, Drop, PartialEq, Eq)]
pub struct ConvertWords {
    pub file: String,
    pub outfile: String,
    pub time_digits: u32,
    pub energy_digits: u32,
}

/// The words of the job `make`: the number that the instance is made from, how many customers and
/// stations it has, and the file that is written.
#[derive(Debug, Drop, PartialEq, Eq)]
pub struct MakeWords {
    pub seed: u64,
    pub customers: u32,
    pub stations: u32,
    pub outfile: String,
}

/// The words of the job `improve`: the file of the instance, another one with the plan, or that
/// there is none, a third one into which the cheaper plan is written, and the limit on the time of
/// each route in place of the instance's, in units of time.
#[derive(Debug, Drop, PartialEq, Eq)]
pub struct ImproveWords {
    pub file: String,
    pub plan: String,
    pub outfile: String,
    pub limit: Option<u64>,
}

/// The words of the job `bound`: the file of the instance, another one into which the proof is
/// written, how many other customers stand in the near set of a customer at most, and the limit on
/// the time of each route in place of the instance's, in units of time.
#[derive(Debug, Drop, PartialEq, Eq)]
pub struct BoundWords {
    pub file: String,
    pub cert: String,
    pub near: u32,
    pub limit: Option<u64>,
}

/// The words of the job `check-bound`: the file of the instance, another one with the proof, and
/// the limit on the time of each route in place of the instance's, in units of time.
#[derive(Debug, Drop, PartialEq, Eq)]
pub struct BoundCheckWords {
    pub file: String,
    pub cert: String,
    pub limit: Option<u64>,
}

/// The words of the jobs `prove` and `check-route`: the file of the instance, the word of the
/// route, another file for the proof, which `prove` writes and `check-route` reads, and the
/// options.
#[derive(Debug, Drop, PartialEq, Eq)]
pub struct ProofWords {
    pub file: String,
    pub route: String,
    pub cert: String,
    pub options: Options,
}

/// The words of the jobs `mixed` and `check-mixed`: the file of the plan, that of the proof, one to
/// eight files of instances, one a kind, and the limit on the time of each route in place of the
/// instances', in units of time.
#[derive(Debug, Drop, PartialEq, Eq)]
pub struct MixedWords {
    pub plan: String,
    pub cert: String,
    pub files: Vec<String>,
    pub limit: Option<u64>,
}

/// A job of the program.
#[derive(Debug, Drop, PartialEq, Eq)]
pub enum Job {
    /// A route is charged.
    Fixed(FixedWords),
    /// A fleet is planned, and its plan and a certificate are written.
    Fleet(FleetWords),
    /// The plan of a file and the certificate of another are judged.
    Check(CheckWords),
    /// The decimals of a file become whole.
    Convert(ConvertWords),
    /// An instance is made from a number.
    Make(MakeWords),
    /// What no fleet plan costs less than is found by near routes, and its proof is written.
    Bound(BoundWords),
    /// What shows that no fleet plan costs less than a bound is judged.
    CheckBound(BoundCheckWords),
    /// A route is charged, and what shows that none is faster is written.
    Prove(ProofWords),
    /// What shows that a charge of a route is a fastest one is judged.
    CheckRoute(ProofWords),
    /// The plan of a file becomes cheaper, and is written into another.
    Improve(ImproveWords),
    /// A fleet of several kinds of vehicles is planned, and its plan and a proof of a bound on its
    /// cost are written.
    Mixed(MixedWords),
    /// A plan of a fleet of several kinds of vehicles and a proof of such a bound are judged.
    CheckMixed(MixedWords),
}

/// The job of the words, which stand behind the program's name, read by one `clap` command: `fixed
/// FILE ROUTE [--limit N] [--charge N]`, `fleet FILE PLAN CERT [--limit N] [--nodes N]`, `check
/// FILE PLAN CERT [--limit N]`, `convert FILE OUTFILE --time-digits N --energy-digits N`, `make
/// SEED CUSTOMERS STATIONS OUTFILE`, `bound FILE CERT --near N [--limit N]`, `check-bound FILE CERT
/// [--limit N]`, `prove FILE ROUTE CERT [--limit N] [--charge N]`, `check-route FILE ROUTE CERT
/// [--limit N] [--charge N]`, `improve FILE PLAN OUTFILE [--limit N]`, `mixed PLAN CERT FILE..
/// [--limit N]` or `check-mixed PLAN CERT FILE.. [--limit N]`, with one to eight FILEs. `None`
/// comes exactly where the words are no such job.
///
/// Options stand anywhere before a word `--`, each at most once; the value is the next word or
/// follows a `=`. A name that begins with `-` and has more behind it is given after `--`. Numbers
/// are written without leading zeros: at most 10^18 for a limit, a charge or nodes, 10^9 for
/// digits and near sets, 2^64 - 1 for a seed, 2^32 - 1 for counts. The nodes are at least 1. The
/// names of files are different texts. No words at all are no job, and take no memory.
pub fn job_words(alloc: Global, words: &[String]) -> Result<Option<Job>, AllocError>
    ensures job { IfOk result
        (λ job. option_map job_value job ≡ job_of (map string_bytes words.now)) }
    ensures is { IfOk result (λ job. IfSome job IsJob) }
    ensures no_words { words.now ≡ [] → result ≡ Ok None }
{
    if words.is_empty() {
        return Ok(None);
    }
    let named = named(alloc, PROGRAM, words)?;
    match found_in(alloc, named.as_slice()) {
        Ok(Some(matches)) => job_in(alloc, &matches),
        Ok(None) => Ok(None),
        Err(AllocError) => Err(AllocError),
    }
}

/// The usage text: how the program is called, a line a command.
pub fn usage() -> &'static str
    ensures { result.now ≡ usage_text }
{
    "evroute fixed FILE ROUTE [--limit N] [--charge N]\n\
     evroute fleet FILE PLAN CERT [--limit N] [--nodes N]\n\
     evroute check FILE PLAN CERT [--limit N]\n\
     evroute convert FILE OUTFILE --time-digits N --energy-digits N\n\
     evroute make SEED CUSTOMERS STATIONS OUTFILE\n\
     evroute bound FILE CERT --near N [--limit N]\n\
     evroute check-bound FILE CERT [--limit N]\n\
     evroute prove FILE ROUTE CERT [--limit N] [--charge N]\n\
     evroute check-route FILE ROUTE CERT [--limit N] [--charge N]\n\
     evroute improve FILE PLAN OUTFILE [--limit N]\n\
     evroute mixed PLAN CERT FILE.. [--limit N]\n\
     evroute check-mixed PLAN CERT FILE.. [--limit N]\n"
}
