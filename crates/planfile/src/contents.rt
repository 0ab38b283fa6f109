ghost use Rattle.planfile.specs.Contents.{Opens};

use crate::entry::Entry;
use crate::fault::FileFault;

// The three entries of a plan file, in their order.
#[derive(Clone, Copy, PartialEq, Eq, Debug)]
pub struct Contents {
    pub link: Entry,
    pub hops: Entry,
    pub lane: Entry,
}

// Reads the contents of a file, if it is as long as they say.
pub fn contents_of(bytes: &[u8]) -> Result<Contents, FileFault>
    ensures { Opens bytes.now result }
{
    if bytes.len() < 25 || bytes.len() > 4096 || bytes[0] != 3 {
        return Err(FileFault::Form);
    }
    let link = Entry::read(&bytes[1..9]).ok_or(FileFault::Form)?;
    let hops = Entry::read(&bytes[9..17]).ok_or(FileFault::Form)?;
    let lane = Entry::read(&bytes[17..25]).ok_or(FileFault::Form)?;
    if bytes.len() != 25 + link.length as usize + hops.length as usize + lane.length as usize {
        return Err(FileFault::Form);
    }
    Ok(Contents { link, hops, lane })
}
