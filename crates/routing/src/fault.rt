ghost use Rattle.std.specs.Prelude.{◌≡◌};
ghost use Rattle.model.specs.Refusals.{number_of};
ghost use Rattle.routing.specs.Faults.{rule_refusal};
ghost use Rattle.routing.specs.declared.fault.RuleFault.TheVariants.{Fabric, Call, Memory};

use fabric::{CallFault, FabricFault};
use std::alloc::AllocError;
use thiserror::Error;

// What is wrong with a route rule. A pair is its source and its destination: two numbers, as a caller is shown them.
#[derive(Clone, Copy, PartialEq, Eq, Debug, Error)]
pub enum RuleFault {
    // A pair, and the switch on its way whose channel is none, missing or leaves another switch.
    #[error("the route from switch {0} to switch {1} stops at switch {2}")]
    Stopped(u8, u8, u8),
    #[error("the route from switch {0} does not reach switch {1}")]
    Unreached(u8, u8),
    #[error("the lane from switch {0} to switch {1} is not below the lane count")]
    Laneless(u8, u8),
    #[error("the channels of lane {0} wait for each other in a cycle of {1}")]
    Cyclic(u8, u8),
    #[error("{0}")]
    Fabric(FabricFault),
    #[error("{0}")]
    Call(CallFault),
    // There is no memory. That is no refusal, and has no number.
    #[error("there is no memory")]
    Memory,
}

impl RuleFault {
    // The number of the refusal; none for want of memory.
    pub fn number(&self) -> Option<u8>
        ensures { result ≡ number_of (rule_refusal self.now) }
    {
        match self {
            RuleFault::Stopped(_, _, _) => Some(5),
            RuleFault::Unreached(_, _) => Some(6),
            RuleFault::Laneless(_, _) => Some(7),
            RuleFault::Cyclic(_, _) => Some(8),
            RuleFault::Fabric(fault) => fault.number(),
            RuleFault::Call(fault) => fault.number(),
            RuleFault::Memory => None,
        }
    }
}

// By hand: contracts name the fault that `?` makes, and a derived `From` has no contract.
impl From<FabricFault> for RuleFault {
    ghost from_gives = { λ f r. r ≡ Fabric f };

    fn from(fault: FabricFault) -> RuleFault {
        Self::Fabric(fault)
    }
}

impl From<CallFault> for RuleFault {
    ghost from_gives = { λ f r. r ≡ Call f };

    fn from(fault: CallFault) -> RuleFault {
        Self::Call(fault)
    }
}

impl From<AllocError> for RuleFault {
    ghost from_gives = { λ _ r. r ≡ Memory };

    fn from(_none: AllocError) -> RuleFault {
        Self::Memory
    }
}
