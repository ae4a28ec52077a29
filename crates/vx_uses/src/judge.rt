//! The laws are answered of records that somebody hands in.

use std::alloc::Global;
use std::test::*;
use vx_base::{
    Answer, Arg, Args, Call, Cell, Cond, Effect, Event, Id, Mode, Opened, Operand, Pid, Rec,
    Sequence, Service, Target,
};
use vx_image::System;
use vx_judge::{law_ast, law_flag, law_once, law_quota, law_rundown};

// A call with one argument.
fn call(service: Service, a0: Arg) -> Call {
    let args = Args {
        a0,
        a1: Arg::Unused,
        a2: Arg::Unused,
        a3: Arg::Unused,
        a4: Arg::Unused,
        a5: Arg::Unused,
        a6: Arg::Unused,
        a7: Arg::Unused,
        a8: Arg::Unused,
    };
    Call { service, args }
}

// A record without effects, of process 1.
fn runs(alloc: Global, service: Service, cond: Cond) -> Rec {
    Rec {
        event: Event::Run(Pid(1)),
        answer: Answer::Service(call(service, Arg::Unused), cond),
        effects: Sequence::new(alloc),
    }
}

// $DCLAST, which opens an AST and queues it.
fn declares(alloc: Global) -> Result<Rec, Fail> {
    let effects = [
        Effect::Open {
            id: Id(1),
            kind: Opened::Ast,
            p: Pid(1),
            mode: Some(Mode::User),
            n: 0,
        },
        Effect::Que(Id(1)),
    ];
    Ok(Rec {
        effects: Sequence::from_vec(Vec::from_array(alloc, effects)?),
        ..runs(alloc, Service::DclAst, Cond::Normal)
    })
}

#[test]
fn an_ast_that_is_declared_keeps_three_laws(rt: HostRuntime) -> Result<(), Fail> {
    let recs = Vec::from_array(rt.alloc(), [declares(rt.alloc())?])?;
    assert!(rt; law_once(recs.as_slice(), rt.alloc()).ok().ok_or("memory")?);
    assert!(rt; law_ast(recs.as_slice(), rt.alloc()).ok().ok_or("memory")?);
    assert!(rt;
        law_rundown(recs.as_slice(), rt.alloc())
            .ok()
            .ok_or("memory")?
    );
    Ok(())
}

// EXQUOTA of a process without a declaration: it is within no limit, so no limit is wrong.
#[test]
fn quotas_are_answered(rt: HostRuntime) -> Result<(), Fail> {
    let alloc = rt.alloc();
    let system = System {
        units: Sequence::new(alloc),
        images: Sequence::new(alloc),
        decls: Sequence::new(alloc),
    };
    let recs = Vec::from_array(alloc, [runs(alloc, Service::DclAst, Cond::ExQuota)])?;
    assert!(rt;
        law_quota(&system, recs.as_slice(), alloc)
            .ok()
            .ok_or("memory")?
    );
    Ok(())
}

// A record of process 1, of event flag 5.
fn of_flag(answer: Answer, effects: Sequence<Effect>) -> Rec {
    Rec {
        event: Event::Run(Pid(1)),
        answer,
        effects,
    }
}

const FLAG: Arg = Arg::Value(Operand::Num(5));

// $SETEF sets the flag, which was clear.
fn sets(alloc: Global) -> Result<Rec, Fail> {
    let effects = [Effect::Flag {
        cell: Cell::Local(Pid(1), 5),
        bit: true,
    }];
    Ok(of_flag(
        Answer::Service(call(Service::SetEf, FLAG), Cond::WasClr),
        Sequence::from_vec(Vec::from_array(alloc, effects)?),
    ))
}

// $READEF reads the flags of its cluster.
fn reads(alloc: Global, flags: u32) -> Result<Rec, Fail> {
    let effects = [Effect::Var {
        p: Pid(1),
        v: Target::Var(b'A'),
        n: flags,
    }];
    Ok(of_flag(
        Answer::Service(call(Service::ReadEf, FLAG), Cond::WasSet),
        Sequence::from_vec(Vec::from_array(alloc, effects)?),
    ))
}

#[test]
fn flags_read_as_they_are_keep_the_law(rt: HostRuntime) -> Result<(), Fail> {
    let recs = Vec::from_array(rt.alloc(), [sets(rt.alloc())?, reads(rt.alloc(), 32)?])?;
    assert!(rt; law_flag(recs.as_slice(), rt.alloc()).ok().ok_or("memory")?);
    Ok(())
}

// $WAITFR waits for the flag, although it is set.
#[test]
fn a_wait_for_a_flag_that_is_set_breaks_the_law(rt: HostRuntime) -> Result<(), Fail> {
    let waits = of_flag(
        Answer::Wait(call(Service::WaitFr, FLAG)),
        Sequence::new(rt.alloc()),
    );
    let recs = Vec::from_array(rt.alloc(), [sets(rt.alloc())?, waits])?;
    assert!(rt; !law_flag(recs.as_slice(), rt.alloc()).ok().ok_or("memory")?);
    Ok(())
}
