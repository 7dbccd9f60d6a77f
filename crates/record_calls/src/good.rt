// A slot that is known, with a record that every accepted call keeps sound: what was judged of it once need not be
// judged again. Soundness by itself is not kept, so the upper range limits are asked for too (`Kept` of paper_desk).
ghost use Rattle.std.specs.Prelude.{◌≡◌, ◌≤◌};
ghost use Rattle.paper.specs.Numbers.{moves_most};
ghost use Rattle.paper_desk.specs.Kept.{within_moves};
ghost use Rattle.record_calls.specs.Good.{is_good};

use paper::Record;
use record_answers::Slot;

// The most that a fresh limit can be, and the most that a move shifts by.
const FRESH_MOST: u64 = 20_000_000_000;

const DELTA_MOST: u64 = 40_000_000_000;

// Whether the upper range limits are no farther than the moves can have brought them.
fn within_moves(r: Record) -> bool
    requires { r.moves.upper ≤ moves_most }
    ensures { result ≡ within_moves r }
{
    let most = FRESH_MOST + r.moves.upper * DELTA_MOST;
    let ranges = r.ranges;
    (ranges[0].upper <= most) & (ranges[1].upper <= most) & (ranges[2].upper <= most)
}

pub fn is_good(s: Slot) -> bool
    ensures { result ≡ is_good s }
{
    if !record_answers::is_known(s) {
        return false;
    }
    let r = s.rec;
    within_moves(r)
}
