ghost use Rattle.std.specs.Prelude.{◌≡◌, true};
ghost use Rattle.model.specs.Net.{is_pair};
ghost use Rattle.model.specs.Planner.{one_more, nearer, chosen, byte_of, hop_table};
ghost use Rattle.fabric.specs.Of.{net};
ghost use Rattle.planner.specs.Rows.{is_nearer};

use crate::draft::Draft;
use crate::rows::HopRows;
use arrayvec::ArrayVec;
use fabric::Pair;
use routing::table::NONE;

// Whether one hop count is one more than the other.
fn one_more(near: Option<u32>, far: Option<u32>) -> bool
    ensures { result ≡ one_more near far }
{
    match (near, far) {
        (Some(near), Some(far)) => near.checked_add(1) == Some(far),
        _ => false,
    }
}

// The candidate that the planner takes: the lowest.
fn choose(candidates: &[u8]) -> Option<u8>
    ensures { result ≡ chosen candidates.now }
{
    candidates.first().copied()
}

impl<'a> HopRows<'a> {
    // Whether a channel leaves a switch for one that is one hop nearer to the destination.
    fn is_nearer(&self, channel: u32, pair: Pair) -> bool
        requires { is_pair (net self.now.fabric.now).switches pair.source pair.destination ≡ true }
        ensures { result ≡ is_nearer (net self.now.fabric.now) pair.source pair.destination channel }
    {
        let Some(joined) = self.fabric.channel(channel) else {
            return false;
        };
        joined.start == pair.source
            && one_more(
                self.hops(joined.finish, pair.destination),
                self.hops(pair.source, pair.destination),
            )
    }

    // The channels that leave a switch for one that is one hop nearer to the destination, ascending.
    #[tactic(auto, using(crate::proofs::Choosing::gathered_yes, crate::proofs::Choosing::gathered_no, crate::proofs::Choosing::gathered_all))]
    fn candidates(&self, pair: Pair) -> ArrayVec<u8, 128>
        requires { is_pair (net self.now.fabric.now).switches pair.source pair.destination ≡ true }
        ensures { result.items ≡ nearer (net self.now.fabric.now) pair.source pair.destination }
    {
        let mut list = ArrayVec::new();
        // A loop, since `collect` into a list of fixed capacity can fail.
        for channel in 0..self.fabric.channel_count() {
            if self.is_nearer(channel, pair) {
                list.push(channel as u8);
            }
        }
        list
    }

    // The byte of the channel taken at a switch for a destination.
    fn toward(&self, pair: Pair) -> u8
        requires { is_pair (net self.now.fabric.now).switches pair.source pair.destination ≡ true }
        ensures { result ≡ byte_of (chosen (nearer (net self.now.fabric.now) pair.source pair.destination)) }
    {
        choose(&self.candidates(pair)).unwrap_or(NONE)
    }

    // The table of the channels taken, each one hop nearer.
    pub(crate) fn shortest(&self) -> Draft<'a>
        ensures on { result.fabric.now ≡ self.now.fabric.now }
        ensures table { result.cells.items ≡ hop_table (net self.now.fabric.now) }
    {
        Draft::of(self.fabric, |pair| self.toward(pair))
    }
}
