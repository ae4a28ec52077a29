//! The law of mailboxes is answered of records that somebody hands in.

use std::alloc::Global;
use std::test::*;
use vx_base::{
    Answer, Arg, Args, Body, Call, Cond, Effect, EffectList, Event, Func, Id, Name, Opened,
    Operand, Pid, Rec, Sequence, Service, Target,
};
use vx_judge::law_box;

// An accepted call of process 1 on channel 1, with its effects.
fn calls(service: Service, a1: Arg, a2: Arg, effects: EffectList) -> Rec {
    let args = Args {
        a0: Arg::Unused,
        a1,
        a2,
        a3: Arg::Unused,
        a4: Arg::Unused,
        a5: Arg::Unused,
        a6: Arg::Unused,
        a7: Arg::Value(Operand::Num(8)),
        a8: Arg::Unused,
    };
    Rec {
        event: Event::Run(Pid(1)),
        answer: Answer::Service(Call { service, args }, Cond::Normal),
        effects,
    }
}

// A request on channel 1.
fn requests(func: Func, effects: EffectList) -> Rec {
    calls(
        Service::Qio,
        Arg::Value(Operand::Num(1)),
        Arg::Func(func),
        effects,
    )
}

fn opens(id: Id) -> Effect {
    Effect::Open {
        id,
        kind: Opened::Bio,
        p: Pid(1),
        mode: None,
        n: 8,
    }
}

// $CREMBX, which answers channel 1.
fn creates(alloc: Global, name: Name) -> Result<Rec, Fail> {
    let effects = [Effect::Var {
        p: Pid(1),
        v: Target::Var(77),
        n: 1,
    }];
    let effects = Sequence::from_vec(Vec::from_array(alloc, effects)?);
    Ok(calls(Service::CreMbx, Arg::Name(name), Arg::Unused, effects))
}

// An end of file is written as request 1.
fn writes(alloc: Global, name: Name) -> Result<Rec, Fail> {
    let effects = [
        opens(Id(1)),
        Effect::MPut {
            name,
            id: Id(1),
            body: Body::Eof,
        },
    ];
    let effects = Sequence::from_vec(Vec::from_array(alloc, effects)?);
    Ok(requests(Func::EofNow, effects))
}

// It goes to a read.
fn reads(alloc: Global, name: Name, id: Id) -> Result<Rec, Fail> {
    let effects = [
        opens(id),
        Effect::MGet {
            name,
            w: Id(1),
            r: id,
        },
        Effect::Fin {
            id,
            cond: Cond::EndOfFile,
        },
    ];
    let effects = Sequence::from_vec(Vec::from_array(alloc, effects)?);
    Ok(requests(Func::ReadNow, effects))
}

#[test]
fn a_message_is_handed_out_once(rt: HostRuntime) -> Result<(), Fail> {
    let alloc = rt.alloc();
    let name = Name::new(b"BOX").ok_or("name")?;
    let once = [
        creates(alloc, name)?,
        writes(alloc, name)?,
        reads(alloc, name, Id(2))?,
    ];
    let mut recs = Vec::from_array(alloc, once)?;
    assert!(rt; law_box(recs.as_slice(), alloc).ok().ok_or("memory")?);
    recs.push(reads(alloc, name, Id(3))?)?;
    assert!(rt; !law_box(recs.as_slice(), alloc).ok().ok_or("memory")?);
    Ok(())
}
