ghost use Rattle.std.specs.Prelude.{◌≡◌, ◌≤◌, map, length, IfOk};
ghost use Rattle.model.specs.Net.{channels_of};
ghost use Rattle.fabric.specs.Channels.{plain};
ghost use Rattle.fabric.specs.Makes.{Judges, JudgesLinks, Makes};

use crate::channel::Channel;
use crate::fault::FabricFault;
use crate::network::Fabric;
use std::alloc::{AllocError, Global};

// Refusals 3 and 4, link by link.
#[tactic(auto, using(crate::proofs::Cables::link_tests))]
fn judge_links(switches: u32, ends: &[u8]) -> Result<(), FabricFault>
    requires { length ends.now ≤ 128 }
    ensures { JudgesLinks switches ends.now result }
{
    let (links, _) = ends.as_chunks::<2>();
    for (link, &[a, b]) in links.iter().enumerate() {
        if a as u32 >= switches || b as u32 >= switches {
            return Err(FabricFault::MissingEnd(link as u8));
        }
        if a == b {
            return Err(FabricFault::EqualEnds(link as u8));
        }
    }
    Ok(())
}

// Every test of a switch count and a list of link ends, in order. It wants no memory.
pub fn judge(switches: u32, ends: &[u8]) -> Result<(), FabricFault>
    ensures { Judges switches ends.now result }
{
    if !(2..=32).contains(&switches) {
        return Err(FabricFault::SwitchCount);
    }
    if ends.len() % 2 == 1 || ends.is_empty() || ends.len() > 128 {
        return Err(FabricFault::EndList);
    }
    judge_links(switches, ends)
}

// Two channels for each link, one a direction.
#[tactic(auto, using(crate::proofs::Cables::channels_are, std::proofs::lemmas::Grind::common_steps))]
fn channels_of(heap: Global, ends: &[u8]) -> Result<Vec<Channel>, AllocError>
    ensures { IfOk result (λ v. map plain v.items ≡ channels_of ends.now) }
{
    let (links, _) = ends.as_chunks::<2>();
    let mut channels = Vec::new(heap);
    for &[a, b] in links {
        channels.push(Channel {
            start: a,
            finish: b,
        })?;
        channels.push(Channel {
            start: b,
            finish: a,
        })?;
    }
    Ok(channels)
}

impl Fabric {
    // Makes a fabric of a switch count and two bytes a link, its ends. Channel 2i of link i goes from its first end to its
    // second, channel 2i + 1 back.
    #[tactic(auto, using(crate::proofs::Cables::found, crate::proofs::Cables::makes))]
    pub fn new(heap: Global, switches: u32, ends: &[u8]) -> Result<Fabric, FabricFault>
        ensures { Makes switches ends.now result }
    {
        judge(switches, ends)?;
        let channels = channels_of(heap, ends)?;
        Ok(Fabric {
            switches: switches as u8,
            channels,
        })
    }
}
