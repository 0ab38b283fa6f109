ghost use Rattle.std.specs.Prelude.{◌<◌};

use crate::contents::contents_of;
use crate::fault::FileFault;
use crate::part::Part;
use crate::{decode, recode, write_and_decode};
use fabric::{CallFault, FabricFault};
use routing::RuleFault;
use routing::rule::RouteRule;
use std::alloc::Global;
use std::test::Fail;

// The plan of four switches in a ring, as far as its contents go: bodies of 9, 16 and 17 bytes.
const CONTENTS: [u8; 25] = *b"\x03LINK\x00\x19\x00\x09HOPS\x00\x22\x00\x10LANE\x00\x32\x00\x11";

// The fault of a file that begins with these contents; its bodies are all zeros.
fn fault(contents: &[u8; 25], file: &mut [u8]) -> Option<FileFault> {
    if file.len() >= 25 {
        file[0..25].copy_from_slice(contents);
    }
    contents_of(file).err()
}

#[test]
fn lengths(rt: HostRuntime) {
    assert_eq!(rt; fault(&CONTENTS, &mut [0; 67]), None);
    assert_eq!(rt; fault(&CONTENTS, &mut [0; 66]), Some(FileFault::Form));
    assert_eq!(rt; fault(&CONTENTS, &mut [0; 68]), Some(FileFault::Form));
    assert_eq!(rt; fault(&CONTENTS, &mut [0; 24]), Some(FileFault::Form));
    assert_eq!(rt; fault(&CONTENTS, &mut [0; 0]), Some(FileFault::Form));
}

#[test]
fn longest(rt: HostRuntime) {
    let mut contents = CONTENTS;
    contents[7] = 15;
    contents[8] = 198;
    assert_eq!(rt; fault(&contents, &mut [0; 4096]), None);
    contents[8] = 199;
    assert_eq!(rt; fault(&contents, &mut [0; 4097]), Some(FileFault::Form));
}

#[test]
fn edition(rt: HostRuntime) {
    let mut contents = CONTENTS;
    contents[0] = 4;
    assert_eq!(rt; fault(&contents, &mut [0; 67]), Some(FileFault::Form));
    assert_eq!(rt; FileFault::Form.number(), Some(15));
}

#[test]
fn parts(rt: HostRuntime) {
    assert_eq!(rt;
        [Part::Link, Part::Hops, Part::Lane].map(Part::number),
        [0, 1, 2]
    );
}

// The plan of four switches in a ring, with one lane.
const RING: [u8; 67] =
    *b"\x03LINK\x00\x19\x00\x09HOPS\x00\x22\x00\x10LANE\x00\x32\x00\x11\x04\x00\x01\x01\x02\x02\x03\x03\x00\xff\x00\x00\x07\x01\xff\x02\x01\x03\x03\xff\x04\x06\x05\x05\xff\x01\xff\x00\x00\x00\x00\xff\x00\x00\x00\x00\xff\x00\x00\x00\x00\xff";

// The fault of the ring's file with this byte changed.
fn changed(heap: Global, at: usize, byte: u8) -> Option<FileFault>
    requires { at < 67 }
{
    let mut file = RING;
    file[at] = byte;
    decode(heap, &file).err()
}

#[test]
fn decoded(rt: HostRuntime) -> Result<(), Fail> {
    let plan = decode(rt.alloc(), &RING)?;
    assert_eq!(rt; plan.fabric().switch_count(), 4);
    assert_eq!(rt; plan.fabric().channel_count(), 8);
    assert_eq!(rt; plan.lane_count(), 1);
    assert_eq!(rt; plan.table().channel(3, 1), Some(5));
    assert_eq!(rt; plan.table().lane(3, 1), 0);
    Ok(())
}

#[test]
fn written_again(rt: HostRuntime) -> Result<(), Fail> {
    let mut out = [7; 70];
    assert_eq!(rt; recode(rt.alloc(), &RING, &mut out)?, 67);
    assert!(rt; out[0..67] == RING[0..67]);
    assert!(rt; out[67..70] == [7; 3]);
    let plan = decode(rt.alloc(), &RING)?;
    let again = write_and_decode(rt.alloc(), plan.fabric(), 8, plan.table(), &mut out)?;
    assert_eq!(rt; again.lane_count(), 8);
    Ok(())
}

#[test]
fn short_list(rt: HostRuntime) {
    let mut out = [7; 66];
    assert_eq!(rt;
        recode(rt.alloc(), &RING, &mut out).err(),
        Some(FileFault::Rule(RuleFault::Call(CallFault::ShortList)))
    );
    assert!(rt; out == [7; 66]);
}

#[test]
fn refusals(rt: HostRuntime) {
    assert_eq!(rt;
        changed(rt.alloc(), 9, b'L'),
        Some(FileFault::Tag(Part::Hops))
    );
    assert_eq!(rt;
        changed(rt.alloc(), 25, 1),
        Some(FileFault::Fabric(FabricFault::SwitchCount))
    );
    assert_eq!(rt;
        changed(rt.alloc(), 29, 9),
        Some(FileFault::Fabric(FabricFault::MissingEnd(1)))
    );
    assert_eq!(rt;
        changed(rt.alloc(), 14, 35),
        Some(FileFault::Place(Part::Hops))
    );
    assert_eq!(rt;
        changed(rt.alloc(), 22, 51),
        Some(FileFault::Place(Part::Lane))
    );
    assert_eq!(rt;
        changed(rt.alloc(), 34, 0),
        Some(FileFault::Diagonal(Part::Hops, 0))
    );
    assert_eq!(rt;
        changed(rt.alloc(), 66, 0),
        Some(FileFault::Diagonal(Part::Lane, 16))
    );
}

#[test]
fn even_length(rt: HostRuntime) {
    let mut file = RING;
    file[8] = 10;
    file[16] = 15;
    assert_eq!(rt;
        decode(rt.alloc(), &file).err(),
        Some(FileFault::Place(Part::Link))
    );
}

#[test]
fn numbers(rt: HostRuntime) {
    assert_eq!(rt; FileFault::Diagonal(Part::Lane, 16).number(), Some(18));
    assert_eq!(rt; FileFault::Fabric(FabricFault::EndList).number(), Some(2));
    assert_eq!(rt; FileFault::Memory.number(), None);
}
