ghost use Rattle.std.specs.Prelude.{Some};

use crate::packet::Packet;
use crate::run::Run;
use crate::words::{Answer, Call, Outcome, Request};
use fabric::{CallFault, Fabric};
use routing::{RouteRule, Rows, RuleFault};
use std::test::Fail;

// A rule that fits no fabric.
#[derive(Drop)]
struct Wild {}

impl RouteRule for Wild {
    ghost maps = { λ _. record { next = λ _ _. Some 254; lane = λ _ _. 255 } };

    fn channel(&self, _switch: u8, _destination: u8) -> Option<u8> {
        Some(254)
    }

    fn lane(&self, _source: u8, _destination: u8) -> u8 {
        255
    }
}

// The ring of four, in one lane.
const ENDS: [u8; 8] = [0, 1, 1, 2, 2, 3, 3, 0];

const ROWS: [u8; 16] = [255, 0, 0, 7, 1, 255, 2, 1, 3, 3, 255, 4, 6, 5, 5, 255];

const RULE: Rows = Rows {
    switches: 4,
    channels: &ROWS,
    lane: 0,
};

#[test]
fn session(rt: HostRuntime) -> Result<(), Fail> {
    let ring = Fabric::new(rt.alloc(), 4, &ENDS)?;
    let mut run = Run::open(&ring, 1, &RULE)?;
    let packet = Packet {
        source: 0,
        destination: 2,
        tag: 7,
    };
    assert_eq!(rt; run.post(0, 2, 7), Ok(()));
    assert_eq!(rt;
        run.post(0, 1, 9),
        Err(RuleFault::Call(CallFault::SenderTaken))
    );
    assert_eq!(rt; run.look_sender(0, 0), Ok(Some(packet)));
    assert_eq!(rt; run.serve(0, 0), Ok(Outcome::Moved(0)));
    assert_eq!(rt; run.serve(0, 0), Ok(Outcome::Waits));
    assert_eq!(rt; run.look(0, 0), Ok(Some(packet)));
    assert_eq!(rt; run.serve(2, 0), Ok(Outcome::Moved(1)));
    assert_eq!(rt; run.serve(2, 0), Ok(Outcome::Delivered(packet)));
    assert_eq!(rt; run.serve(2, 0), Ok(Outcome::Idle));
    Ok(())
}

#[test]
fn numbers_past_every_limit(rt: HostRuntime) -> Result<(), Fail> {
    let ring = Fabric::new(rt.alloc(), 4, &ENDS)?;
    let mut run = Run::open(&ring, 1, &RULE)?;
    for number in [4, 255, 256, 4_294_967_295] {
        assert_eq!(rt;
            run.post(number, 0, 1),
            Err(RuleFault::Call(CallFault::MissingNumber))
        );
        assert_eq!(rt;
            run.post(0, number, 1),
            Err(RuleFault::Call(CallFault::MissingNumber))
        );
        assert_eq!(rt; run.serve(0, number), Err(CallFault::MissingNumber));
        assert_eq!(rt; run.look_sender(number, 0), Err(CallFault::MissingNumber));
    }
    assert_eq!(rt;
        run.post(2, 2, 1),
        Err(RuleFault::Call(CallFault::MissingNumber))
    );
    assert_eq!(rt; run.serve(256, 0), Err(CallFault::MissingNumber));
    assert_eq!(rt; run.look(8, 0), Err(CallFault::MissingNumber));
    assert_eq!(rt; run.post(0, 2, 4_294_967_295), Ok(()));
    Ok(())
}

#[test]
fn wild_rule(rt: HostRuntime) -> Result<(), Fail> {
    let ring = Fabric::new(rt.alloc(), 4, &ENDS)?;
    let rule = Wild {};
    let mut run = Run::open(&ring, 8, &rule)?;
    assert_eq!(rt; run.post(3, 1, 0), Err(RuleFault::Laneless(3, 1)));
    assert_eq!(rt; run.serve(0, 7), Ok(Outcome::Idle));
    assert_eq!(rt; run.look(7, 7), Ok(None));
    Ok(())
}

#[test]
fn lists_of_requests(rt: HostRuntime) -> Result<(), Fail> {
    let ring = Fabric::new(rt.alloc(), 4, &ENDS)?;
    let requests = [
        Request::Make(Call::Post(0, 1, 5)),
        Request::Make(Call::Serve(8, 0)),
        Request::Make(Call::Serve(0, 0)),
    ];
    let mut answers = [Answer::Taken; 4];
    let run = Run::replay(&ring, 1, &RULE, &requests, &mut answers)?;
    assert_eq!(rt;
        run.look(0, 0),
        Ok(Some(Packet {
            source: 0,
            destination: 1,
            tag: 5,
        }))
    );
    assert_eq!(rt;
        answers[1],
        Answer::Refused(RuleFault::Call(CallFault::MissingNumber))
    );
    assert_eq!(rt; answers[2], Answer::Served(Outcome::Moved(0)));
    assert_eq!(rt; answers[3], Answer::Taken);
    Ok(())
}

#[test]
fn refused_replays(rt: HostRuntime) -> Result<(), Fail> {
    let ring = Fabric::new(rt.alloc(), 4, &ENDS)?;
    let rule = Wild {};
    let mut answers = [Answer::Taken; 1];
    let requests = [Request::Look(0, 0); 2];
    assert_eq!(rt;
        Run::replay(&ring, 1, &rule, &requests, &mut answers).err(),
        Some(CallFault::ShortList)
    );
    assert_eq!(rt;
        Run::replay(&ring, 9, &rule, &requests, &mut answers).err(),
        Some(CallFault::LaneCount)
    );
    assert_eq!(rt;
        Run::replay(&ring, 0, &rule, &[], &mut answers).err(),
        Some(CallFault::LaneCount)
    );
    assert_eq!(rt; answers[0], Answer::Taken);
    Ok(())
}
