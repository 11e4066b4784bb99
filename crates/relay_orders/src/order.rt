// Orders of a relay's moves: each job eight times.
ghost use Rattle.std.specs.Prelude.{◌≡◌, ℕ, ◌*◌, ◌<◌, ◌≤◌, ◌^◌, length};
ghost use Rattle.relay_orders.specs.Order.{remainder, job_of, small, ruled, after, drawn, below, lane_from, shuffled, order_of, Gives};

// The remainder, and 0 where there are no jobs.
#[tactic(auto, unfolding(crate::specs::Order::remainder))]
fn remainder(a: u32, count: u32) -> u32
    ensures { result ≡ remainder a count }
{
    if count == 0 { 0 } else { a % count }
}

// The job of a move that has `up` moves in front of it and `down` behind it.
#[tactic(auto, unfolding(crate::specs::Order::job_of))]
fn job_of(kind: u32, up: u32, down: u32, count: u32) -> u32
    ensures { result ≡ job_of kind up down count }
{
    match kind {
        1 => remainder(up, count),
        2 => down / 8,
        3 => remainder(down, count),
        _ => up / 8,
    }
}

// A number of jobs, and 0 where it is more than a relay may have.
#[tactic(auto, unfolding(crate::specs::Order::small))]
fn small(count: usize) -> u32
    ensures value { result ≡ small count }
    ensures upper_bound { result ≤ 64 }
{
    if count <= 64 { count as u32 } else { 0 }
}

// Jobs have eight moves each.
fn fill_by_rule(order: &mut [u32], kind: u32, count: u32)
    requires { count ≤ 64 }
    ensures { order.new ≡ ruled kind count (length order.old) 0 (8 * count) }
{
    let mut up: u32 = 0;
    let mut down = 8 * count;
    for i in 0..order.len() {
        down = down.wrapping_sub(1);
        order[i] = job_of(kind, up, down, count);
        up = up.wrapping_add(1);
    }
}

// The next number of a seeded sequence.
#[tactic(auto, unfolding(crate::specs::Order::after))]
fn after(x: u32) -> u32
    ensures { result ≡ after x }
{
    ((u64::from(x) * 1664525 + 1013904223) % 4294967296) as u32
}

// Fills the slice with what the numbers behind a seed give.
fn fill_from<T: Copy, F: Fn(u32) -> T>(xs: &mut [T], seed: u32, of: F)
    requires { F.IsAlwaysCallable of }
    ensures { (made : ℕ → T) → Gives (F.post of) made
        → xs.new ≡ drawn made (length xs.old) (after seed) }
{
    let mut x = after(seed);
    for i in 0..xs.len() {
        x = after(x);
        xs[i] = of(x);
    }
}

/// Fills the slice with numbers below `limit`, from a seed.
pub fn fill_drawn(xs: &mut [u32], seed: u32, limit: u32)
    ensures { xs.new ≡ drawn (below limit) (length xs.old) (after seed) }
{
    // the high half: the low bits of such a sequence repeat soon
    fill_from(xs, seed, |x| remainder(x / 65536, limit));
}

/// Fills lanes with whole numbers from 0 to 7, from a seed: many distances are equal.
pub fn fill_lanes(lanes: &mut [f32], seed: u32)
    ensures { lanes.new ≡ drawn lane_from (length lanes.old) (after seed) }
{
    fill_from(lanes, seed, |x| std::num::nearest_u32_to_f32(x / 536870912));
}

#[tactic(auto, unfolding(crate::specs::Order::shuffled))]
fn shuffle(order: &mut [u32], seed: u32)
    ensures { order.new ≡ shuffled seed order.old }
{
    let mut draws: [u32; 512] = [0; 512];
    fill_drawn(&mut draws, seed, 65536);
    if order.len() <= 512 {
        shuffles::shuffle(order, &draws, 0);
    }
}

/// Fills the slice with an order of `count` jobs: one job at a time, a step of each in turn, both from the last job on, and from kind 4
/// on shuffled.
#[tactic(auto, unfolding(crate::specs::Order::order_of))]
pub fn fill(order: &mut [u32], kind: u32, count: usize)
    ensures { order.new ≡ order_of kind count (length order.old) }
{
    let jobs = small(count);
    fill_by_rule(order, kind, jobs);
    if kind >= 4 {
        shuffle(order, kind);
    }
}
