//! The files that a job reads and writes, by name.

use command_line::Job;
use plain_words::{Instances, JobNames};

/// What a judge reads beside a plan.
const CERTIFICATE: &str = "a certificate";

const PROOF: &str = "a proof";

const BOUND: &str = "a proof of a bound";

const MIXED: &str = "a proof for kinds of vehicles";

/// The names of no job.
pub(crate) fn no_names<'a>() -> JobNames<'a> {
    JobNames {
        instances: Instances::None,
        limit: None,
        route: None,
        plan: None,
        proof: None,
        proof_is: CERTIFICATE,
        writes: [None, None],
        has_search: false,
        judge: None,
    }
}

/// What a job reads and writes.
pub fn names_of(job: &Job) -> JobNames<'_> {
    match job {
        Job::Fixed(job) => JobNames {
            limit: job.options.limit,
            route: Some(job.route.as_str()),
            ..of_instance(job.file.as_str())
        },
        Job::Fleet(job) => JobNames {
            limit: job.limit,
            writes: [Some(job.plan.as_str()), Some(job.cert.as_str())],
            has_search: true,
            judge: Some("evroute check"),
            ..of_instance(job.file.as_str())
        },
        Job::Check(job) => JobNames {
            limit: job.limit,
            plan: Some(job.plan.as_str()),
            proof: Some(job.cert.as_str()),
            ..of_instance(job.file.as_str())
        },
        Job::Convert(job) => JobNames {
            writes: [Some(job.outfile.as_str()), None],
            ..of_instance(job.file.as_str())
        },
        Job::Make(job) => JobNames {
            writes: [Some(job.outfile.as_str()), None],
            ..no_names()
        },
        Job::Improve(job) => JobNames {
            limit: job.limit,
            plan: Some(job.plan.as_str()),
            writes: [Some(job.outfile.as_str()), None],
            has_search: true,
            ..of_instance(job.file.as_str())
        },
        _ => names_of_proof(job),
    }
}

/// The same of a job that writes or judges a proof.
fn names_of_proof(job: &Job) -> JobNames<'_> {
    match job {
        Job::Bound(job) => JobNames {
            limit: job.limit,
            writes: [Some(job.cert.as_str()), None],
            has_search: true,
            judge: Some("evroute check-bound"),
            ..of_instance(job.file.as_str())
        },
        Job::CheckBound(job) => JobNames {
            limit: job.limit,
            proof: Some(job.cert.as_str()),
            proof_is: BOUND,
            ..of_instance(job.file.as_str())
        },
        Job::Prove(job) => JobNames {
            limit: job.options.limit,
            route: Some(job.route.as_str()),
            writes: [Some(job.cert.as_str()), None],
            has_search: true,
            judge: Some("evroute check-route"),
            ..of_instance(job.file.as_str())
        },
        Job::CheckRoute(job) => JobNames {
            limit: job.options.limit,
            route: Some(job.route.as_str()),
            proof: Some(job.cert.as_str()),
            proof_is: PROOF,
            ..of_instance(job.file.as_str())
        },
        Job::Mixed(job) => JobNames {
            instances: Instances::Kinds(job.files.as_slice()),
            limit: job.limit,
            writes: [Some(job.plan.as_str()), Some(job.cert.as_str())],
            has_search: true,
            judge: Some("evroute check-mixed"),
            ..no_names()
        },
        Job::CheckMixed(job) => JobNames {
            instances: Instances::Kinds(job.files.as_slice()),
            limit: job.limit,
            plan: Some(job.plan.as_str()),
            proof: Some(job.cert.as_str()),
            proof_is: MIXED,
            ..no_names()
        },
        _ => no_names(),
    }
}

/// The names of a job that reads one instance.
fn of_instance(file: &str) -> JobNames<'_> {
    JobNames {
        instances: Instances::One(file),
        ..no_names()
    }
}
