// A whole relay: opened, moved in an order and closed into the lists that were lent to it; counts the calls that are refused.
ghost use Rattle.std.specs.Prelude.{◌≡◌};
ghost use Rattle.rules.specs.Refusals.{said_of};
ghost use Rattle.relay_orders.specs.Run.{refused_in, ran, relayed, opened_of, moved_by, relayed_in, whole_of};

use rules::Refusal;

/// A relay of lanes of one dimension: its nodes, the length of its lists, and its jobs.
#[derive(Clone, Copy)]
pub struct Relay<'a> {
    pub n: usize,
    pub k: usize,
    pub lanes: &'a [f32],
    pub jobs: &'a [u32],
}

// What lent places hold before a call.
const JUNK: u32 = 0xCDCD_CDCD;

fn refused(answer: Result<(), Refusal>) -> u32
    ensures { result ≡ refused_in (said_of answer) }
{
    match answer {
        Ok(()) => 0,
        Err(_) => 1,
    }
}

fn opened(r: Relay, nodes: &[u32], dists: &[f32], words: &mut [u32], floats: &mut [f32]) -> u32
    ensures { ran words.new floats.new result ≡ opened_of r.entry.n r.entry.k r.entry.lanes.now nodes.now dists.now r.entry.jobs.now words.old floats.old }
{
    let mut scratch_u: [u32; 8192] = [JUNK; 8192];
    let mut scratch_f: [f32; 8192] = [1.5; 8192];
    let answer = relay_opening::open(
        1,
        r.n,
        r.lanes,
        r.k,
        nodes,
        dists,
        r.jobs,
        words,
        floats,
        &mut scratch_u,
        &mut scratch_f,
    );
    refused(answer)
}

fn moved(n: usize, k: usize, order: &[u32], words: &mut [u32], floats: &mut [f32]) -> u32
    ensures { ran words.new floats.new result ≡ moved_by n k order.now (ran words.old floats.old 0) }
{
    let mut count: u32 = 0;
    for &job in order {
        let answer = relay_move::move_job(n, k, relays::index(job), words, floats);
        count = count.wrapping_add(refused(answer));
    }
    count
}

fn in_state(
    r: Relay,
    order: &[u32],
    words: &mut [u32],
    floats: &mut [f32],
    nodes: &mut [u32],
    dists: &mut [f32],
    reports: &mut [u32],
) -> u32
    ensures { relayed result nodes.new dists.new reports.new ≡ relayed_in r.entry.n r.entry.k words.old floats.old r.entry.lanes.now r.entry.jobs.now order.now nodes.old dists.old reports.old }
{
    let a = opened(r, nodes, dists, words, floats);
    let b = moved(r.n, r.k, order, words, floats);
    let c = refused(relay_close::close(r.n, r.k, words, floats, nodes, dists, reports));
    a.wrapping_add(b.wrapping_add(c))
}

/// Opens a relay, moves it in the order given and closes it. Returns how many calls were refused.
pub fn whole(
    r: Relay,
    order: &[u32],
    nodes: &mut [u32],
    dists: &mut [f32],
    reports: &mut [u32],
) -> u32
    ensures { relayed result nodes.new dists.new reports.new ≡ whole_of r.entry.n r.entry.k r.entry.lanes.now r.entry.jobs.now order.now nodes.old dists.old reports.old }
{
    let mut words: [u32; 2048] = [JUNK; 2048];
    let mut floats: [f32; 1024] = [1.5; 1024];
    let words = &mut words[..relays::words_long(r.n, r.k).min(2048)];
    let floats = &mut floats[..relays::floats_long(r.n, r.k).min(1024)];
    in_state(r, order, words, floats, nodes, dists, reports)
}
