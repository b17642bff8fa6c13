//! Which phase of the record comes next.
ghost use Rattle.std.specs.Prelude.{◌≡◌, ◌<◌};
ghost use Rattle.std.specs.Bool.{OnTrue};
ghost use Rattle.beside_run.specs.declared.coming.TheConstants.{MOST_LOOKS, MOST_STEPS};

use good_phases::Beat;

// No phase is taken beside one that ends further behind in the record.
pub(crate) const MOST_LOOKS: usize = 1_000_000_000_000;

// No phase is taken beside one with a higher limit.
pub(crate) const MOST_STEPS: u64 = 1_000_000_000_000;

/// Whether the phase begins where a run is, and has this limit, and all can be counted.
pub(crate) fn is_next(beat: Beat, at: usize, limit: u64, nodes: usize) -> bool
    ensures { OnTrue result ((beat.begin ≡ at) × (beat.limit ≡ limit) × (beat.end < MOST_LOOKS) × (limit < MOST_STEPS) × (nodes < MOST_LOOKS)) }
{
    beat.begin == at
        && beat.limit == limit
        && beat.end < MOST_LOOKS
        && limit < MOST_STEPS
        && nodes < MOST_LOOKS
}
