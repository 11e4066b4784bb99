// The words of one job of a relay: u, v, the steps done, the report and the measure of each half, 8 spare words of 0.
#![tactic(auto)]

ghost use Rattle.std.specs.Prelude.{◌≡◌, ◌≤◌, length, get_or};
ghost use Rattle.rules.specs.Relay.{bit};
ghost use Rattle.jobs.specs.Jobs.{half_formed, distance_formed, job_test, PendingHalf, PendingJob, kept_words};

use rules::NodeId;

/// Whether a half's report and measure are what `steps` of it can have left: no report before its look or if u = v, and a yes at
/// each measure after a push.
#[tactic(auto, using(crate::proofs::Halves::half_laws))]
pub fn half_formed(equal: bool, steps: usize, taken: u32, longer: u32) -> bool
    ensures { result ≡ half_formed equal steps taken longer }
{
    // 1 or 0, and 0 where u = v
    let fair = taken <= u32::from(!equal);
    match steps {
        0 => taken == 0 && longer == 0,
        1 | 2 => fair && longer == 0,
        _ => fair && longer == taken,
    }
}

/// Whether a job's stored distance is fit, and 0.0 where u = v.
#[tactic(auto, using(crate::proofs::Laws::distance_nan), unfolding(crate::specs::Jobs::distance_formed, rules::specs::Distance::fit))]
pub fn distance_formed(equal: bool, x: f32) -> bool
    ensures { result ≡ distance_formed equal x }
{
    if equal {
        return zeros::zero_bits(x);
    }
    !x.is_nan() && x.to_bits() <= 0x7F7F_FFFE
}

/// Whether the first 15 words are those of a well-formed job with the stored distance `x`.
#[tactic(auto, using(crate::proofs::Laws::job_is, std::proofs::lemmas::Bool::Decides::nat_tests))]
pub fn job_formed(words: &[u32], x: f32, n: usize) -> bool
    requires { 15 ≤ length words.now }
    ensures { result ≡ job_test n words.now x }
{
    let equal = words[0] == words[1];
    let steps = words[2] as usize;
    steps <= 8
        && half_formed(equal, steps, words[3], words[4])
        && half_formed(equal, steps.saturating_sub(4), words[5], words[6])
        && zeros::words_zero(&words[7..15], 0)
        && (words[0] as usize) < n
        && (words[1] as usize) < n
        && distance_formed(equal, x)
}

/// Whether a half offers to node `w`'s list, has pushed and has not yet popped.
#[tactic(auto, using(crate::proofs::Halves::half_laws))]
fn pends(node: NodeId, w: NodeId, steps: usize, taken: u32) -> bool
    ensures { PendingHalf node.0 w.0 steps taken (bit result) }
{
    node.0 == w.0 && taken == 1 && matches!(steps, 2 | 3)
}

/// How many of a job's halves have pushed to node `w`'s list and not yet popped.
pub fn pending(words: &[u32], w: NodeId) -> usize
    requires { 15 ≤ length words.now }
    ensures { PendingJob words.now w.0 result }
{
    let steps = words[2] as usize;
    let first = pends(NodeId(words[0]), w, steps, words[3]);
    let later = pends(NodeId(words[1]), w, steps.saturating_sub(4), words[5]);
    usize::from(first) + usize::from(later)
}

/// Keeps what one step of a job left: one more step done, and the report and measure of the half whose words are at `half`.
pub fn keep(words: &mut [u32], half: usize, taken: u32, longer: u32)
    requires { (15 ≤ length words.old) × (half ≤ 5) × (get_or words.old 2 0 ≤ 7) }
    ensures { words.new ≡ kept_words words.old half taken longer }
{
    words[2] += 1;
    words[half] = taken;
    words[half + 1] = longer;
}
