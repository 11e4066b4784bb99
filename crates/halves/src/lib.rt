// One step of half a job, on the list that it offers to: what the job keeps, and what becomes of the list in its room.
#![tactic(auto)]

ghost use Rattle.std.specs.Prelude.{◌≡◌, ◌≤◌, ◌<◌, eqb, length};
ghost use Rattle.rules.specs.Lists.{entries};
ghost use Rattle.rules.specs.RelayPlaces.{stage_in};
ghost use Rattle.halves.specs.Halves.{NextFlags, Roomed, NextList};

use rules::Neighbor;

/// A half's report, and what its measure said.
#[derive(Clone, Copy)]
pub struct Flags {
    pub taken: bool,
    pub longer: bool,
}

/// What a half with `steps` done keeps after its next step: a look takes an offer up unless u = v, and only of one that was taken up
/// can the list be longer than `k`.
#[tactic(auto, using(crate::proofs::Laws::flag_laws))]
pub fn next_flags(
    nodes: &[u32],
    dists: &[f32],
    len: usize,
    k: usize,
    e: Neighbor,
    equal: bool,
    steps: usize,
    flags: Flags,
) -> Flags
    requires le_k { (1 ≤ k) × (k ≤ len) × (len ≤ length nodes.now) × (len ≤ length dists.now) }
    requires steps_bound { steps ≤ 3 }
    ensures { NextFlags k equal e (entries len nodes.now dists.now) (stage_in steps flags.taken flags.longer) result }
{
    let taken = flags.taken;
    match steps {
        0 => Flags {
            taken: !equal && steps::look(nodes, dists, len, e),
            longer: false,
        },
        1 => Flags {
            taken,
            longer: false,
        },
        2 => Flags {
            taken,
            longer: taken && k < len,
        },
        _ => flags,
    }
}

/// The next step of a half with `steps` done, on its list: the second pushes where the offer was taken up, the fourth pops where
/// the list was longer than k. Returns the list's new length.
pub fn next_list(
    nodes: &mut [u32],
    dists: &mut [f32],
    len: usize,
    e: Neighbor,
    steps: usize,
    taken: u32,
    longer: u32,
) -> usize
    requires le_len { (1 ≤ len) × (steps ≤ 3) × Roomed nodes.old dists.old len }
    requires len_in_bounds { steps ≡ 1 → taken ≡ 1 → len < length nodes.old }
    ensures { NextList nodes.old dists.old len e (stage_in steps (eqb taken 1) (eqb longer 1)) nodes.new dists.new result }
{
    if steps == 1 && taken == 1 {
        return lists::push(nodes, dists, len, e);
    }
    if steps == 3 && longer == 1 {
        return lists::pop(nodes, dists, len);
    }
    len
}
