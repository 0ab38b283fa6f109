ghost use Rattle.std.specs.Prelude.{◌≡◌};
ghost use Rattle.model.specs.Refusals.{number_of};
ghost use Rattle.routing.specs.declared.fault.RuleFault.TheVariants.{Call};
ghost use Rattle.planner.specs.Faults.{topology_refusal};
ghost use Rattle.planner.specs.declared.fault.TopologyFault.TheVariants.{Rule};

use fabric::CallFault;
use routing::RuleFault;
use thiserror::Error;

// What is wrong with a topology: the cabling is sound, but allows no such plan. A pair is its
// source and its destination: two numbers, as a caller is shown them.
#[derive(Clone, Copy, PartialEq, Eq, Debug, Error)]
pub enum TopologyFault {
    #[error("no path leads from switch {0} to switch {1}")]
    NoPath(u8, u8),
    #[error("the route from switch {0} to switch {1} closes a cycle in every lane")]
    NoLane(u8, u8),
    // What is wrong with the given channels, or with the call.
    #[error("{0}")]
    Rule(RuleFault),
}

impl TopologyFault {
    // The number of the refusal; none for want of memory.
    pub fn number(&self) -> Option<u8>
        ensures { result ≡ number_of (topology_refusal self.now) }
    {
        match self {
            TopologyFault::NoPath(_, _) => Some(9),
            TopologyFault::NoLane(_, _) => Some(10),
            TopologyFault::Rule(fault) => fault.number(),
        }
    }
}

// By hand: contracts name the fault that `?` makes, and a derived `From` has no contract.
impl From<RuleFault> for TopologyFault {
    ghost from_gives = { λ f r. r ≡ Rule f };

    fn from(fault: RuleFault) -> TopologyFault {
        Self::Rule(fault)
    }
}

impl From<CallFault> for TopologyFault {
    ghost from_gives = { λ f r. r ≡ Rule (Call f) };

    fn from(fault: CallFault) -> TopologyFault {
        Self::Rule(RuleFault::Call(fault))
    }
}
