ghost use Rattle.std.specs.Prelude.{◌≡◌};
ghost use Rattle.model.specs.Refusals.{number_of};
ghost use Rattle.planfile.specs.Faults.{file_refusal};
ghost use Rattle.planfile.specs.declared.fault.FileFault.TheVariants.{Fabric, Rule, Memory};
ghost use Rattle.routing.specs.declared.fault.RuleFault.TheVariants.{Call};

use crate::part::Part;
use fabric::{CallFault, FabricFault};
use routing::RuleFault;
use std::alloc::AllocError;
use thiserror::Error;

// What is wrong with a plan file.
#[derive(Clone, Copy, PartialEq, Eq, Debug, Error)]
pub enum FileFault {
    #[error("the file is under 25 or over 4,096 bytes, byte 0 is not 3, or the length is not 25 plus the three lengths")]
    Form,
    #[error("the entry of {0} has the wrong tag")]
    Tag(Part),
    #[error("the entry of {0} has the wrong offset or length")]
    Place(Part),
    // The part, and the byte in its body, counted from 0.
    #[error("byte {1} of {0} lies on the diagonal and is not 255")]
    Diagonal(Part, u16),
    #[error("{0}")]
    Fabric(FabricFault),
    #[error("{0}")]
    Rule(RuleFault),
    // There is no memory. That is no refusal, and has no number.
    #[error("there is no memory")]
    Memory,
}

impl FileFault {
    // The number of the refusal; none for want of memory.
    pub fn number(&self) -> Option<u8>
        ensures { result ≡ number_of (file_refusal self.now) }
    {
        match self {
            FileFault::Form => Some(15),
            FileFault::Tag(_) => Some(16),
            FileFault::Place(_) => Some(17),
            FileFault::Diagonal(_, _) => Some(18),
            FileFault::Fabric(fault) => fault.number(),
            FileFault::Rule(fault) => fault.number(),
            FileFault::Memory => None,
        }
    }
}

// By hand: contracts name the fault that `?` makes, and a derived `From` has no contract.
impl From<FabricFault> for FileFault {
    ghost from_gives = { λ f r. r ≡ Fabric f };

    fn from(fault: FabricFault) -> FileFault {
        Self::Fabric(fault)
    }
}

impl From<RuleFault> for FileFault {
    ghost from_gives = { λ f r. r ≡ Rule f };

    fn from(fault: RuleFault) -> FileFault {
        Self::Rule(fault)
    }
}

impl From<CallFault> for FileFault {
    ghost from_gives = { λ f r. r ≡ Rule (Call f) };

    fn from(fault: CallFault) -> FileFault {
        Self::Rule(RuleFault::Call(fault))
    }
}

impl From<AllocError> for FileFault {
    ghost from_gives = { λ _ r. r ≡ Memory };

    fn from(_none: AllocError) -> FileFault {
        Self::Memory
    }
}
