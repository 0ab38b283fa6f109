ghost use Rattle.std.specs.Prelude.{◌≡◌};
ghost use Rattle.model.specs.Refusals.{number_of};
ghost use Rattle.fabric.specs.Faults.{call_refusal, fabric_refusal};
ghost use Rattle.fabric.specs.declared.fault.FabricFault.TheVariants.{Memory};

use std::alloc::AllocError;
use thiserror::Error;

// What a caller does wrong.
#[derive(Clone, Copy, PartialEq, Eq, Debug, Error)]
pub enum CallFault {
    #[error("a switch, channel or lane that does not exist, or a source that is its destination")]
    MissingNumber,
    #[error("the sender slot is taken")]
    SenderTaken,
    #[error("a list is too short")]
    ShortList,
    #[error("the lane count is not 1 to 8")]
    LaneCount,
}

impl CallFault {
    // The number of the refusal; an option as of the other faults, though each of these has one.
    pub fn number(&self) -> Option<u8>
        ensures { result ≡ number_of (call_refusal self.now) }
    {
        match self {
            CallFault::MissingNumber => Some(11),
            CallFault::SenderTaken => Some(12),
            CallFault::ShortList => Some(13),
            CallFault::LaneCount => Some(14),
        }
    }
}

// What is wrong with a cabling.
#[derive(Clone, Copy, PartialEq, Eq, Debug, Error)]
pub enum FabricFault {
    #[error("the switch count is not 2 to 32")]
    SwitchCount,
    #[error("the list of link ends is odd, empty or over 128 bytes")]
    EndList,
    #[error("an end of link {0} is not below the switch count")]
    MissingEnd(u8),
    #[error("both ends of link {0} are the same switch")]
    EqualEnds(u8),
    #[error("a side of the grid is 0, or its switches are not 2 to 32")]
    GridSize,
    // There is no memory. That is no refusal, and has no number.
    #[error("there is no memory")]
    Memory,
}

impl FabricFault {
    // The number of the refusal; none for want of memory.
    pub fn number(&self) -> Option<u8>
        ensures { result ≡ number_of (fabric_refusal self.now) }
    {
        match self {
            FabricFault::SwitchCount => Some(1),
            FabricFault::EndList => Some(2),
            FabricFault::MissingEnd(_) => Some(3),
            FabricFault::EqualEnds(_) => Some(4),
            FabricFault::GridSize => Some(20),
            FabricFault::Memory => None,
        }
    }
}

// By hand: contracts name the fault that `?` makes, and a derived `From` has no contract.
impl From<AllocError> for FabricFault {
    ghost from_gives = { λ _ r. r ≡ Memory };

    fn from(_none: AllocError) -> FabricFault {
        Self::Memory
    }
}
