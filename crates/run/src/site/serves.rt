ghost use Rattle.std.specs.Prelude.{Some};
ghost use Rattle.model.specs.Packets.{serve, said};
ghost use Rattle.model.specs.Run.{step};
ghost use Rattle.run.specs.Words.{outcome_reply};
ghost use Rattle.run.specs.View.{view};
ghost use Rattle.run.specs.Runs.{setup_at, Does};

use crate::board::Board;
use crate::site::Site;
use crate::words::Outcome;
use routing::RouteRule;

impl<R: RouteRule> Site<'_, R> {
    // One serve of the slot.
    pub fn serve(&self, board: &mut Board) -> Outcome
        ensures { Does (setup_at R.maps self.now) board.old (serve self.now.slot.channel self.now.slot.lane) board.new (Some (outcome_reply result)) }
    {
        match board.slot(self.slot).held {
            Some(packet) if packet.destination == self.finish => {
                board.hold(self.slot, None);
                Outcome::Delivered(packet)
            }
            Some(_) => Outcome::Waits,
            None => match self.first_contending(board) {
                Some(p) => {
                    self.grant(board, p);
                    Outcome::Moved(p)
                }
                None => Outcome::Idle,
            },
        }
    }
}
