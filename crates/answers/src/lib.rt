// What an answer says over the C boundary: its refusal's number and places, and its counts.
#![tactic(auto)]

ghost use Rattle.std.specs.Prelude.{◌≡◌};
ghost use Rattle.rules.specs.Refusals.{code, code_of, said_of};
ghost use Rattle.rules.specs.SearchCall.{search_said};
ghost use Rattle.rules.specs.DescentCall.{iterate_said};
ghost use Rattle.answers.specs.Answers.{code_in, found_in, iterated_in};

use rules::{IterateCounts, Refusal, SearchCounts};

/// A refusal by its number and two places; all 0 where there is none.
#[repr(C)]
#[derive(Clone, Copy)]
pub struct Said {
    pub refusal: usize,
    pub first: usize,
    pub second: usize,
}

/// What a search says: its refusal, the count of results, and the count of nodes taken from the queue.
#[repr(C)]
#[derive(Clone, Copy)]
pub struct Found {
    pub refusal: usize,
    pub first: usize,
    pub second: usize,
    pub m: usize,
    pub takings: usize,
}

/// What an iteration says: its refusal, the cost, and the total of new.
#[repr(C)]
#[derive(Clone, Copy)]
pub struct Iterated {
    pub refusal: usize,
    pub first: usize,
    pub second: usize,
    pub cost: usize,
    pub total: usize,
}

// A refusal's number and places; all 0 where there is none.
fn numbered(refusal: usize, first: usize, second: usize) -> Said
    ensures { code_in result ≡ code refusal first second }
{
    Said {
        refusal,
        first,
        second,
    }
}

/// A refusal's number and places.
impl From<Refusal> for Said {
    ghost from_gives = { λ r s. code_in s ≡ code_of r };

    #[tactic(auto, unfolding(rules::specs::Refusals::code_of))]
    fn from(r: Refusal) -> Said {
        match r {
            Refusal::Dimension => numbered(1, 0, 0),
            Refusal::Nodes => numbered(2, 0, 0),
            Refusal::Lanes => numbered(3, 0, 0),
            Refusal::Parameter => numbered(4, 0, 0),
            Refusal::Threshold => numbered(5, 0, 0),
            Refusal::Buffer => numbered(6, 0, 0),
            Refusal::Root(at) => numbered(7, at, 0),
            Refusal::Query => numbered(8, 0, 0),
            Refusal::Job(at) => numbered(9, at, 0),
            Refusal::Pair(i, j) => numbered(10, i.0 as usize, j.0 as usize),
            Refusal::Draws => numbered(11, 0, 0),
            Refusal::State => numbered(12, 0, 0),
            Refusal::Step(job) => numbered(13, job, 0),
        }
    }
}

/// What the answer of build, begin, open, a move or a close says.
impl From<Result<(), Refusal>> for Said {
    ghost from_gives = { λ a s. code_in s ≡ said_of a };

    #[tactic(auto, unfolding(rules::specs::Refusals::said_of))]
    fn from(a: Result<(), Refusal>) -> Said {
        match a {
            Ok(()) => numbered(0, 0, 0),
            Err(r) => Said::from(r),
        }
    }
}

/// What a search's answer says.
impl From<Result<SearchCounts, Refusal>> for Found {
    ghost from_gives = { λ a s. found_in s ≡ search_said a };

    #[tactic(auto, unfolding(rules::specs::SearchCall::search_said))]
    fn from(a: Result<SearchCounts, Refusal>) -> Found {
        let (s, counts) = match a {
            Ok(counts) => (numbered(0, 0, 0), counts),
            Err(r) => (Said::from(r), SearchCounts { m: 0, takings: 0 }),
        };
        Found {
            refusal: s.refusal,
            first: s.first,
            second: s.second,
            m: counts.m,
            takings: counts.takings,
        }
    }
}

/// What an iteration's answer says.
impl From<Result<IterateCounts, Refusal>> for Iterated {
    ghost from_gives = { λ a s. iterated_in s ≡ iterate_said a };

    #[tactic(auto, unfolding(rules::specs::DescentCall::iterate_said))]
    fn from(a: Result<IterateCounts, Refusal>) -> Iterated {
        let (s, counts) = match a {
            Ok(counts) => (numbered(0, 0, 0), counts),
            Err(r) => (Said::from(r), IterateCounts { cost: 0, new: 0 }),
        };
        Iterated {
            refusal: s.refusal,
            first: s.first,
            second: s.second,
            cost: counts.cost,
            total: counts.new,
        }
    }
}
