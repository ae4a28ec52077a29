//! A request clears its status block before it is opened: judged of records that somebody hands in.

use std::alloc::Global;
use std::test::*;
use vx_base::{
    Answer, Arg, Args, Call, Cond, Effect, Event, Id, Mode, Opened, Operand, Pid, Rec, Sequence,
    Service,
};
use vx_judge::law_completions;

// $QIO with status block 1, and what it did.
fn asks<const N: usize>(alloc: Global, effects: [Effect; N]) -> Result<Rec, Fail> {
    let args = Args {
        a0: Arg::Unused,
        a1: Arg::Unused,
        a2: Arg::Unused,
        a3: Arg::Value(Operand::Num(1)),
        a4: Arg::Unused,
        a5: Arg::Unused,
        a6: Arg::Unused,
        a7: Arg::Unused,
        a8: Arg::Unused,
    };
    let service = Service::Qio;
    Ok(Rec {
        event: Event::Run(Pid(1)),
        answer: Answer::Service(Call { service, args }, Cond::Normal),
        effects: Sequence::from_vec(Vec::from_array(alloc, effects)?),
    })
}

// The request is opened.
fn opens() -> Effect {
    Effect::Open {
        id: Id(1),
        kind: Opened::Bio,
        p: Pid(1),
        mode: Some(Mode::User),
        n: 1,
    }
}

// The status block is cleared.
fn clears() -> Effect {
    Effect::Iosb {
        p: Pid(1),
        i: 1,
        cond: None,
        count: 0,
        info: 0,
    }
}

#[test]
fn a_request_clears_its_status_block_first(rt: HostRuntime) -> Result<(), Fail> {
    let alloc = rt.alloc();
    let cleared = Vec::from_array(alloc, [asks(alloc, [clears(), opens()])?])?;
    assert!(rt;
        law_completions(cleared.as_slice(), alloc)
            .ok()
            .ok_or("memory")?
    );
    let left = Vec::from_array(alloc, [asks(alloc, [opens()])?])?;
    assert!(rt;
        !law_completions(left.as_slice(), alloc)
            .ok()
            .ok_or("memory")?
    );
    Ok(())
}
