ghost use Rattle.std.specs.Prelude.{◌≡◌, ◌↔◌, IsTrue, ◌≢◌, ◌+◌, ◌<◌, ◌≤◌, length, take, drop, OnOk, IfErr};
ghost use Rattle.planfile.specs.Contents.{Taken};
ghost use Rattle.planfile.specs.Faults.{part_number};
ghost use Rattle.planfile.specs.File.{entry_bytes};
ghost use Rattle.planfile.specs.Refused.{tag_of};
ghost use Rattle.planfile.specs.declared.fault.FileFault.TheVariants.{Tag};

use crate::fault::FileFault;
use crate::part::Part;

// An entry of the contents: what a body is, where it begins and how long it is.
#[derive(Clone, Copy, PartialEq, Eq, Debug)]
pub struct Entry {
    pub tag: [u8; 4],
    pub offset: u16,
    pub length: u16,
}

impl Entry {
    // Takes the eight bytes of an entry apart; none for any other count of bytes.
    pub fn read(bytes: &[u8]) -> Option<Entry>
        ensures { Taken bytes.now result }
    {
        let &[t0, t1, t2, t3, o0, o1, l0, l1] = bytes else {
            return None;
        };
        Some(Entry {
            tag: [t0, t1, t2, t3],
            offset: u16::from_be_bytes([o0, o1]),
            length: u16::from_be_bytes([l0, l1]),
        })
    }

    // The eight bytes of an entry: the tag, then offset and length, high byte first.
    pub fn write(self) -> [u8; 8]
        ensures { result ≡ entry_bytes self.tag self.offset self.length }
    {
        let [t0, t1, t2, t3] = self.tag;
        let [o0, o1] = self.offset.to_be_bytes();
        let [l0, l1] = self.length.to_be_bytes();
        [t0, t1, t2, t3, o0, o1, l0, l1]
    }

    // Refusal 16: this entry has another tag than that of the part.
    pub(crate) fn check_tag(self, part: Part) -> Result<(), FileFault>
        ensures ok { OnOk result (self.tag ≡ tag_of (part_number part)) }
        ensures err { IfErr result (λ f. (f ≡ Tag part) × (self.tag ≢ tag_of (part_number part))) }
    {
        if self.tag == part.tag() {
            Ok(())
        } else {
            Err(FileFault::Tag(part))
        }
    }

    // Where the body ends.
    pub(crate) fn end(self) -> usize
        ensures { result ≡ self.offset + self.length }
    {
        self.offset as usize + self.length as usize
    }

    // Whether its body has this length and follows another's.
    pub(crate) fn follows(self, other: Entry, length: usize) -> bool
        ensures { IsTrue result ↔ ((self.offset ≡ other.offset + other.length) × (self.length ≡ length)) }
    {
        self.offset as usize == other.end() && self.length as usize == length
    }

    // The body in the bytes of its file.
    pub(crate) fn body(self, bytes: &[u8]) -> &[u8]
        requires { self.offset + self.length ≤ length bytes.now }
        ensures { result.now ≡ take self.length (drop self.offset bytes.now) }
    {
        &bytes[self.offset as usize..self.end()]
    }

    // The entry of a part whose body has this length and follows this one's.
    pub(crate) fn followed_by(self, part: Part, length: u16) -> Entry
        requires { self.offset + self.length < 65536 }
        ensures tag { result.tag ≡ tag_of (part_number part) }
        ensures offset { result.offset ≡ self.offset + self.length }
        ensures long { result.length ≡ length }
    {
        Entry {
            tag: part.tag(),
            offset: self.offset + self.length,
            length,
        }
    }
}
