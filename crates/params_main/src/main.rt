// The setters chained, as with `SSGParams` in hora: each parameter set to another than its default.
#![tactic(auto)]

use params::SsgParams;

fn main() {
    let p = SsgParams::default()
        .init_k(2)
        .index_size(2)
        .neighbor_neighbor_size(10)
        .threshold(0.25);
    check::expect(p.init_k == 2);
    check::expect(p.index_size == 2);
    check::expect(p.neighbor_neighbor_size == 10);
    check::expect(p.threshold == 0.25);
}
