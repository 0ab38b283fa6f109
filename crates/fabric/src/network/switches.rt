ghost use Rattle.std.specs.Prelude.{◌≡◌};
ghost use Rattle.std.specs.List.{list_any};
ghost use Rattle.model.specs.Net.{joins};
ghost use Rattle.fabric.specs.Channels.{plain};
ghost use Rattle.fabric.specs.Of.{net};
ghost use Rattle.fabric.specs.Switches;
ghost use Rattle.fabric.specs.Switches.{goes};

use crate::channel::Channel;
use crate::network::Fabric;
use graph::Graph;

impl Fabric {
    // Whether some channel goes from the one switch to the other.
    // Not in `leads` itself: the proof of a chain is found only under a clause that is a chain too.
    fn has_channel(&self, from: u8, to: u8) -> bool
        ensures { result ≡ list_any (λ c. goes from to (plain c)) self.now.channels.items }
    {
        let joins = |channel: &Channel| channel.start == from && channel.finish == to;
        self.channels.iter().any(joins)
    }
}

// The switches of a fabric as a graph: one leads to another where some channel goes from the one to the other.
impl Graph for Fabric {
    ghost nodes = { λ f. (net f).switches };

    ghost edge = { λ f u v. joins (net f) u v };

    ghost few = { λ f. Switches.few_switches f.switches f.sizes.0 f.sizes.1 };

    ghost loopless = { λ f u. Switches.loopless f.switches (net f).channels u f.inside };

    fn node_count(&self) -> u32 {
        self.switch_count()
    }

    // By bytes, so that the search widens no channel's switches to compare them.
    #[tactic(auto, using(crate::proofs::Joining::joins_is))]
    fn leads(&self, from: u32, to: u32) -> bool {
        if from >= 256 || to >= 256 {
            return false;
        }
        self.has_channel(from as u8, to as u8)
    }
}
