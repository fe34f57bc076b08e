// How far a linear program may go.
use master_lp::Limits;

/// Of a search and of `bound`: pivots in a round, rounds, and cells of the table (268 MB).
pub(crate) const SEARCH_LIMITS: Limits = Limits {
    pivots: 20_000,
    rounds: 2_000,
    cells: 16_777_216,
};

/// Of a trial: as many pivots and cells, and fewer rounds.
pub(crate) const TRIAL_LIMITS: Limits = Limits {
    pivots: 20_000,
    rounds: 100,
    cells: 16_777_216,
};
