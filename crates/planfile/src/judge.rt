ghost use Rattle.std.specs.Prelude.{◌≡◌, ◌↔◌, ◌+◌, ◌*◌, length, IsTrue, MatchOption};
ghost use Rattle.planfile.specs.Contents.{Holds};
ghost use Rattle.planfile.specs.Judges.{Judges, Searches, TablesIn, Tagged};
ghost use Rattle.planfile.specs.Refused.{Cabled, Marred, Plain, switches_in};

use crate::bodies::{Bodies, Tables};
use crate::contents::{Contents, contents_of};
use crate::fault::FileFault;
use crate::links::read_links;
use crate::part::Part;
use routing::table::NONE;

// The contents, and refusals 15 and 16.
fn open(bytes: &[u8]) -> Result<Contents, FileFault>
    ensures { Tagged bytes.now result }
{
    let contents = contents_of(bytes)?;
    contents.link.check_tag(Part::Link)?;
    contents.hops.check_tag(Part::Hops)?;
    contents.lane.check_tag(Part::Lane)?;
    Ok(contents)
}

// HOPS follows LINK, and has a byte for each two switches.
fn hops_placed(contents: Contents, cells: u16) -> bool
    ensures { IsTrue result ↔ ((contents.hops.offset ≡ contents.link.offset + contents.link.length) × (contents.hops.length ≡ cells)) }
{
    contents.hops.follows(contents.link, cells as usize)
}

// LANE follows HOPS, and has the lane count and a byte for each two switches.
fn lane_placed(contents: Contents, cells: u16) -> bool
    ensures { IsTrue result ↔ ((contents.lane.offset ≡ contents.hops.offset + contents.hops.length) × (contents.lane.length ≡ 1 + cells)) }
{
    contents.lane.follows(contents.hops, 1 + cells as usize)
}

// The bodies of the other entries, and refusals 17 of HOPS and LANE.
fn read_tables(bytes: &[u8], contents: Contents, switches: u8) -> Result<Tables, FileFault>
    requires cabled { Cabled bytes.now }
    requires holds { Holds bytes.now contents }
    requires counted { switches ≡ switches_in bytes.now }
    ensures { TablesIn bytes.now result }
{
    let cells = switches as u16 * switches as u16;
    if !hops_placed(contents, cells) {
        return Err(FileFault::Place(Part::Hops));
    }
    if !lane_placed(contents, cells) {
        return Err(FileFault::Place(Part::Lane));
    }
    let lane = contents.lane.body(bytes);
    Ok(Tables {
        hops: contents.hops.body(bytes),
        lane_count: lane[0],
        lanes: &lane[1..],
    })
}

// The first row of a table whose byte on the diagonal is not 255, if there is one.
fn marred_row(table: &[u8], switches: u8) -> Option<usize>
    requires { length table.now ≡ switches * switches }
    ensures { MatchOption result (Plain switches table.now switches) (Marred switches table.now) }
{
    table
        .iter()
        .step_by(switches as usize + 1)
        .position(|byte| *byte != NONE)
}

// Where that byte stands in the table.
fn first_marred(table: &[u8], switches: u8) -> Option<u16>
    requires { length table.now ≡ switches * switches }
    ensures { Searches switches table.now result }
{
    let row = marred_row(table, switches)?;
    Some((row * (switches as usize + 1)) as u16)
}

// The whole file, taken apart; every refusal, and without memory.
pub fn judge(bytes: &[u8]) -> Result<Bodies, FileFault>
    ensures { Judges bytes.now result }
{
    let contents = open(bytes)?;
    let links = read_links(bytes, contents.link)?;
    let tables = read_tables(bytes, contents, links.switches)?;
    if let Some(byte) = first_marred(tables.hops, links.switches) {
        return Err(FileFault::Diagonal(Part::Hops, byte));
    }
    if let Some(byte) = first_marred(tables.lanes, links.switches) {
        return Err(FileFault::Diagonal(Part::Lane, 1 + byte));
    }
    Ok(Bodies { links, tables })
}
