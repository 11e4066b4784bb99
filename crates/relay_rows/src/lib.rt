// Rows 9 and 10 of open's table: its jobs.
#![tactic(auto)]

ghost use Rattle.std.specs.Prelude.{◌≡◌, not, ◌&&◌, [], ◌∷◌, ◌*◌, ◌<◌, eqb, length};
ghost use Rattle.rules.specs.Distance.{unfit};
ghost use Rattle.rules.specs.Refusals.{decide, decision_of, row9, row10_of_jobs, first_bad_job};
ghost use Rattle.metrics.specs.Counters.{apart};
ghost use Rattle.relay_open.specs.Open.{JobsIn};

use metrics::Counters;
use rules::{NodeId, Refusal};

/// The first job that names a node of `n` or more; the number of jobs where there is none.
fn first_bad_job(n: usize, jobs: &[u32]) -> usize
    ensures { result ≡ first_bad_job n jobs.now }
{
    let count = jobs.len() / 2;
    let mut i = 0;
    while i < count {
        if n <= jobs[2 * i] as usize {
            return i;
        }
        if n <= jobs[2 * i + 1] as usize {
            return i;
        }
        i += 1;
    }
    i
}

/// Row 9: the number of jobs, and each job.
pub fn jobs_row(n: usize, jobs: &[u32]) -> Result<(), Refusal>
    ensures { decision_of result ≡ decide (row9 n jobs.now ∷ []) }
{
    let count = jobs.len() / 2;
    if table::outside(1, 64, count) {
        return Err(Refusal::Job(0));
    }
    let at = first_bad_job(n, jobs);
    if at < count {
        return Err(Refusal::Job(at));
    }
    Ok(())
}

// Whether a job's nodes are unequal and their distance is unfit.
fn unfit_job(counters: Counters<'_>, u: NodeId, v: NodeId) -> bool
    requires { (u.0 < counters.n) × (v.0 < counters.n) }
    ensures { result ≡ (not (eqb u.0 v.0) && unfit (apart counters.entry u.0 v.0)) }
{
    if u.0 == v.0 {
        return false;
    }
    counters.distance(u, v).is_none()
}

/// Row 10 of a relay: the first of its jobs with unequal nodes whose distance is unfit.
pub fn unfit_row(counters: Counters<'_>, jobs: &[u32]) -> Result<(), Refusal>
    requires { JobsIn counters.n jobs.now }
    ensures { decision_of result ≡ decide (row10_of_jobs (apart counters.entry) jobs.now ∷ []) }
{
    let count = jobs.len() / 2;
    let mut i = 0;
    while i < count {
        let u = jobs[2 * i];
        let v = jobs[2 * i + 1];
        if unfit_job(counters, NodeId(u), NodeId(v)) {
            return Err(Refusal::Pair(NodeId(u), NodeId(v)));
        }
        i += 1;
    }
    Ok(())
}
