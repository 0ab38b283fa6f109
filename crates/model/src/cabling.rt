ghost use Rattle.model.specs.Cabling.{CablingExact};

// A switch count and a list of link ends make a fabric, or are refused for exactly one reason.
pub fn cabling_exact()
    ensures { CablingExact }
{}
