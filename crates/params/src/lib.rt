// The parameters of a build (hora's `ssg_params.rs`): the defaults, and a setter for each.
#![tactic(auto)]

ghost use Rattle.std.specs.Prelude.{◌≡◌};
ghost use Rattle.params.specs.Params.{defaults, with_threshold, with_init_k, with_index_size, with_neighbor_neighbor_size};

/// The parameters of a build (hora's `SSGParams`): the threshold stands for the angle, and the roots are given.
#[derive(Clone, Copy, Debug, PartialEq)]
pub struct SsgParams {
    pub threshold: f32,
    pub init_k: usize,
    pub index_size: usize,
    pub neighbor_neighbor_size: usize,
}

/// The defaults (hora's `default`): 64, 64 and 100, and the threshold 0.5.
impl Default for SsgParams {
    ghost is_default = { λ p. p ≡ defaults };

    fn default() -> Self {
        SsgParams {
            threshold: 0.5,
            init_k: 64,
            index_size: 64,
            neighbor_neighbor_size: 100,
        }
    }
}

impl SsgParams {
    /// The parameters with another threshold (hora's `angle`).
    pub fn threshold(mut self, new_threshold: f32) -> Self
        ensures { result ≡ with_threshold self new_threshold }
    {
        self.threshold = new_threshold;
        self
    }

    /// The parameters with another length of the exact lists (hora's `init_k`).
    pub fn init_k(mut self, new_init_k: usize) -> Self
        ensures { result ≡ with_init_k self new_init_k }
    {
        self.init_k = new_init_k;
        self
    }

    /// The parameters with another length of a row (hora's `index_size`).
    pub fn index_size(mut self, new_index_size: usize) -> Self
        ensures { result ≡ with_index_size self new_index_size }
    {
        self.index_size = new_index_size;
        self
    }

    /// The parameters with another limit of two-hop candidates (hora's `neighbor_neighbor_size`).
    pub fn neighbor_neighbor_size(mut self, new_neighbor_neighbor_size: usize) -> Self
        ensures { result ≡ with_neighbor_neighbor_size self new_neighbor_neighbor_size }
    {
        self.neighbor_neighbor_size = new_neighbor_neighbor_size;
        self
    }
}
