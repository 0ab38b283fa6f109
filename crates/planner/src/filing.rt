ghost use Rattle.std.specs.List.{All};
ghost use Rattle.model.specs.Net.{count};
ghost use Rattle.model.specs.Planner.{filed};
ghost use Rattle.fabric.specs.Of.{net};
ghost use Rattle.planner.specs.Boards.{Sound, Placed};
ghost use Rattle.planner.specs.Drafts.{needs};
ghost use Rattle.planner.specs.Stages.{Answers};

use crate::dependencies::file_in;
use crate::draft::Draft;
use crate::fault::TopologyFault;
use arrayvec::ArrayVec;
use fabric::{LaneCount, Pair};
use routing::Dependencies;
use routing::table::NONE;

// Files a pair in the lowest lane where no cycle closes, and returns which that is.
fn place(draft: &Draft, board: &mut [Dependencies], pair: Pair) -> Option<usize>
    requires { All (Sound (count (net draft.now.fabric.now))) board.old }
    ensures { Placed (count (net draft.now.fabric.now)) (needs draft.now pair) board.old board.new result }
{
    // A loop, since nothing is known of what a closure of `position` writes.
    for (lane, filed) in board.iter_mut().enumerate() {
        if file_in(draft, filed, pair) {
            return Some(lane);
        }
    }
    None
}

// Files every pair, by source, then destination, and returns the lane table. Refusal 10: a pair that fits in no lane.
pub(crate) fn file_pairs(
    draft: &Draft,
    lanes: LaneCount,
) -> Result<ArrayVec<u8, 1024>, TopologyFault>
    ensures { Answers (net draft.now.fabric.now).switches draft.now.cells.items (filed (net draft.now.fabric.now) lanes.lanes draft.now.cells.items) result }
{
    let switches = draft.fabric.switch_count() as usize;
    let mut board = [Dependencies::none(draft.fabric); 8];
    let board = &mut board[..lanes.get() as usize];
    let mut table = ArrayVec::from([NONE; 1024]);
    table.truncate(switches * switches);
    for pair in draft.fabric.pairs() {
        let no_lane = TopologyFault::NoLane(pair.source, pair.destination);
        let lane = place(draft, board, pair).ok_or(no_lane)?;
        // By row, as the caller's table is.
        table[pair.source as usize * switches + pair.destination as usize] = lane as u8;
    }
    Ok(table)
}
