// The sets of jobs: those of square I, and those that are drawn.
ghost use Rattle.std.specs.Prelude.{◌≡◌};
ghost use Rattle.relay_orders.specs.Sets.{lanes_of_square, jobs_of_square, drawn_game};

/// A game that is drawn: its nodes, the length of its lists, and the seeds of its lanes, of its first jobs and of the further ones.
#[derive(Clone, Copy)]
pub struct Game {
    pub n: u32,
    pub k: usize,
    pub lanes: u32,
    pub first: u32,
    pub further: u32,
}

/// The lanes of square I.
pub fn square_lanes() -> [f32; 4]
    ensures { result ≡ lanes_of_square }
{
    [0.0, 1.0, 3.0, 7.0]
}

/// The jobs of square I.
pub fn square_jobs() -> [u32; 6]
    ensures { result ≡ jobs_of_square }
{
    [0, 1, 0, 3, 0, 2]
}

/// The drawn game of this number.
#[tactic(auto, unfolding(crate::specs::Sets::drawn_game))]
pub fn drawn(number: u32) -> Game
    ensures { result ≡ drawn_game number }
{
    Game {
        n: 6,
        k: number as usize,
        lanes: number.wrapping_add(20261100),
        first: number.wrapping_add(20261101),
        further: number.wrapping_add(20261102),
    }
}
