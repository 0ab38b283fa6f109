ghost use Rattle.std.specs.Prelude.{◌≡◌, ◌↔◌, ◌+◌, ◌%◌, ◌≤◌, length, IsTrue};
ghost use Rattle.fabric.specs.Channels.{starts};
ghost use Rattle.fabric.specs.Of.{net};
ghost use Rattle.model.specs.Net.{count};
ghost use Rattle.planfile.specs.Contents.{EntryFrom, entry_at};
ghost use Rattle.planfile.specs.File.{link_body};
ghost use Rattle.planfile.specs.Judges.{LinksIn};
ghost use Rattle.planfile.specs.Refused.{Opened};

use crate::entry::Entry;
use crate::fault::FileFault;
use crate::part::Part;
use fabric::Fabric;
use fabric::network::judge as judge_cabling;

// The switch count of a plan file and the ends of its links: the first entry and its body.
#[derive(Clone, Copy)]
pub struct Links<'a> {
    pub switches: u8,
    pub ends: &'a [u8],
}

// LINK is the first body, and has the switch count and 1 to 64 links of two ends each.
fn link_placed(link: Entry) -> bool
    ensures { IsTrue result ↔ ((link.offset ≡ 25) × (3 ≤ link.length) × (link.length ≤ 129) × (link.length % 2 ≡ 1)) }
{
    link.offset == 25 && link.length >= 3 && link.length <= 129 && link.length % 2 == 1
}

// Reads them, with refusals 17 of LINK, 1, 3 and 4.
pub fn read_links(bytes: &[u8], link: Entry) -> Result<Links, FileFault>
    requires opened { Opened bytes.now }
    requires there { EntryFrom bytes.now (entry_at 0) link }
    ensures { LinksIn bytes.now result }
{
    if !link_placed(link) {
        return Err(FileFault::Place(Part::Link));
    }
    let body = link.body(bytes);
    let (switches, ends) = (body[0], &body[1..]);
    judge_cabling(switches as u32, ends)?;
    Ok(Links { switches, ends })
}

// The ends of the links are the starts of the channels.
fn write_ends(fabric: &Fabric, out: &mut [u8])
    requires { length out.old ≡ count (net fabric.now) }
    ensures { out.new ≡ starts (net fabric.now).channels }
{
    // By their places: what is written through a `zip` of `iter_mut` is not known after the loop.
    for (at, channel) in fabric.channels().iter().enumerate() {
        out[at] = channel.start;
    }
}

// Writes the body.
pub fn write_links(fabric: &Fabric, body: &mut [u8])
    requires { length body.old ≡ 1 + count (net fabric.now) }
    ensures { body.new ≡ link_body (net fabric.now) }
{
    body[0] = fabric.switch_count() as u8;
    write_ends(fabric, &mut body[1..]);
}
