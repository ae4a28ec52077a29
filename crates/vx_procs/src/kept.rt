//! A unit of the script, with what the end of its next service needs.

ghost use Rattle.std.specs.Prelude.{◌≡◌, ◌↔◌, ◌<◌, IfOk, IfSome, IsTrue, OnErr, IfNone, OnOk, OnSome, Some, None, map};
ghost use Rattle.vx_base.specs.Serving.{serve, settled};
ghost use Rattle.vx_image.specs.Units.{first_unit};
ghost use Rattle.std.specs.List.{AllByRecursion};
ghost use Rattle.vx_units.specs.Any.{seen};
ghost use Rattle.vx_units.specs.Leases.{Home, Out, Back, is_out};
ghost use Rattle.vx_units.specs.Units.{is_for_unit, outputs_of};
ghost use Rattle.vx_procs.specs.Again.{asked_in, stand_in};
ghost use Rattle.vx_procs.specs.Units.{IsForEnd, IsIn, IsMadeFor, IsTakenOf, asked_of, log_of, stand_of, stood};
ghost use Rattle.vx_procs.specs.View.{unit_of};

use std::alloc::Global;
use std::marker::Model;
use std::mem::replace;
use std::snapshot::Snapshot;
use vx_base::{Bytes, Effects, NoMemory, Reply, Req, UnitNo};
use vx_image::{UnitDecl, UnitDecls};
use vx_units::{AnyUnit, DeviceUnit, ServedUnit, UnitLease};

/// How many effects the end of a service tells at most.
const END_EFFECTS: u32 = 5;

/// What is there of a unit: the unit, or nothing while it is out, when clauses still see what it was as it left.
#[derive(Drop)]
enum Contents {
    Here(AnyUnit),
    Away(Snapshot<AnyUnit>),
}

/// What a unit is asked next, with the log in which the end of that service is told: nothing; a request for which it is ready; one
/// that it took along as it left; or one that it has served, with the reply, and the service is pending.
#[derive(Drop)]
enum Asked {
    Nothing,
    Ready(Req, Effects),
    Out(Snapshot<Req>, Effects),
    Served(Req, Reply, Effects),
}

/// A unit, and what it is asked next.
#[derive(Drop)]
pub(crate) struct KeptUnit {
    contents: Contents,
    asked: Asked,
}

impl Model for KeptUnit {
    ghost use Rattle.vx_procs.specs.Units.{Kept};

    ghost Value = { Kept };

    ghost use Rattle.vx_procs.specs.Places.{IsKept, ending_in, unit_in};

    ghost view = { λ k. record { unit = unit_in k.contents; ending = ending_in k.asked } };

    ghost invariant = { λ k. IsKept k.contents k.asked };
}

impl KeptUnit {
    /// A unit as it is declared.
    pub(crate) fn new(alloc: Global, decl: &UnitDecl) -> Result<KeptUnit, NoMemory>
        ensures { IfOk result (λ kept. kept ≡ record { unit = first_unit decl.now; ending = None }) }
    {
        Ok(KeptUnit {
            contents: Contents::Here(AnyUnit::new(alloc, decl)?),
            asked: Asked::Nothing,
        })
    }

    /// The same unit again, with what the end of its next service needs if it had that.
    pub(crate) fn duplicate(&self, alloc: Global) -> Result<KeptUnit, NoMemory>
        requires { IsIn self.now }
        ensures unit { IfOk result (λ copy. copy.unit ≡ self.now.unit) }
        ensures asked { IfOk result (λ copy. asked_in copy ≡ asked_in self.now) }
        ensures stand { IfOk result (λ copy. stand_in copy ≡ stand_in self.now) }
    {
        let Contents::Here(unit) = &self.contents else {
            unreachable!()
        };
        let asked = match &self.asked {
            Asked::Nothing => Asked::Nothing,
            Asked::Ready(req, _) => Asked::Ready(req.copy()?, end_log(alloc)?),
            Asked::Served(req, reply, _) => {
                Asked::Served(req.copy()?, copy_reply(reply)?, end_log(alloc)?)
            }
            Asked::Out(..) => unreachable!(),
        };
        Ok(KeptUnit {
            contents: Contents::Here(unit.duplicate()?),
            asked,
        })
    }

    // The unit, which is not out.
    fn unit(&self) -> &AnyUnit
        requires { IsIn self.now }
        ensures { (seen result.now).unit ≡ self.now.unit }
    {
        match &self.contents {
            Contents::Here(unit) => unit,
            Contents::Away(_) => unreachable!(),
        }
    }

    /// Whether it holds the same, with the same faults and as many services. Takes no memory.
    pub(crate) fn same(&self, other: &KeptUnit) -> bool
        requires here { IsIn self.now }
        requires there { IsIn other.now }
        ensures { IsTrue result ↔ (self.now.unit ≡ other.now.unit) }
    {
        self.unit().same(other.unit())
    }

    /// How many services there were.
    pub(crate) fn services(&self) -> u32
        requires { IsIn self.now }
        ensures { result ≡ self.now.unit.services }
    {
        self.unit().services()
    }

    /// The lines that were written to it; a block unit has none.
    pub(crate) fn outputs(&self) -> &[Bytes]
        requires { IsIn self.now }
        ensures { result.now ≡ outputs_of self.now.unit.contents }
    {
        self.unit().outputs()
    }

    /// Whether it is out.
    pub(crate) fn is_out(&self) -> bool
        ensures { result ≡ is_out (stand_of self.now.ending) }
    {
        match &self.asked {
            Asked::Out(..) => true,
            Asked::Nothing | Asked::Ready(..) | Asked::Served(..) => false,
        }
    }

    /// Makes what the end of a service of a request needs. If memory is short, nothing is changed; nor is a unit made ready that is
    /// out or has served.
    pub(crate) fn prepare(&mut self, alloc: Global, req: &Req) -> Result<(), NoMemory>
        requires { IsTrue (is_for_unit req.now) }
        ensures unit { self.new.unit ≡ self.old.unit }
        ensures ok { OnOk result (IsMadeFor self.new.ending req.now) }
        ensures err { OnErr result (self.new ≡ self.old) }
    {
        let Contents::Here(unit) = &mut self.contents else {
            return Err(NoMemory);
        };
        if let Asked::Served(..) = &self.asked {
            return Err(NoMemory);
        }
        let (asked, log) = ready_for(alloc, req)?;
        unit.ready(req)?;
        self.asked = Asked::Ready(asked, log);
        Ok(())
    }

    /// Ends the service of the request that it is asked: serves it, if that was not done. The log is the one that was made for that.
    /// Takes no memory.
    pub(crate) fn finish(&mut self, req: &Req) -> (Reply, Effects)
        requires asked { asked_of self.old.ending ≡ Some req.now }
        requires home { IsIn self.old }
        requires count { self.old.unit.services < 4294967295 }
        ensures reply { result.0 ≡ (serve self.old.unit req.now).reply }
        ensures log { Some result.1 ≡ log_of self.old.ending }
        ensures end { IsForEnd result.1 }
        ensures after { self.new ≡ record { unit = settled self.old.unit req.now; ending = None } }
    {
        let Contents::Here(unit) = &mut self.contents else {
            unreachable!()
        };
        match replace(&mut self.asked, Asked::Nothing) {
            Asked::Ready(_, log) => {
                let reply = unit.serve(req);
                unit.settle();
                (reply, log)
            }
            Asked::Served(_, reply, log) => {
                unit.settle();
                (reply, log)
            }
            Asked::Nothing | Asked::Out(..) => unreachable!(),
        }
    }

    /// Takes the unit out, with the request for which it is ready, as unit `u`. None exactly where it is ready for none. Takes no memory.
    pub(crate) fn lease(&mut self, u: UnitNo) -> Option<UnitLease>
        requires { self.old.unit.services < 4294967295 }
        ensures lease { IfSome result (IsTakenOf self.old u) }
        ensures asked { asked_of self.new.ending ≡ asked_of self.old.ending }
        ensures out { OnSome result (self.new ≡ record self.old { ending = stood Out self.old.ending }) }
        ensures kept { IfNone result (self.new ≡ self.old) }
        ensures none { IfNone result (stand_of self.old.ending ≡ Home → self.old.ending ≡ None) }
    {
        let Asked::Ready(req, _) = &self.asked else {
            return None;
        };
        let taken = Snapshot::of(req);
        let away = match &self.contents {
            Contents::Here(unit) => Contents::Away(Snapshot::of(unit)),
            Contents::Away(_) => unreachable!(),
        };
        let Asked::Ready(req, log) = replace(&mut self.asked, Asked::Nothing) else {
            unreachable!()
        };
        let Contents::Here(unit) = replace(&mut self.contents, away) else {
            unreachable!()
        };
        self.asked = Asked::Out(taken, log);
        Some(UnitLease::new(u, req, unit))
    }

    /// Takes the unit back, which has served. Takes no memory.
    pub(crate) fn give_back(&mut self, served: ServedUnit)
        requires out { stand_of self.old.ending ≡ Out }
        requires asked { asked_of self.old.ending ≡ Some served.lease.req }
        requires contents { served.lease.contents ≡ self.old.unit }
        ensures { self.new ≡ record self.old { ending = stood Back self.old.ending } }
    {
        let (unit, req, reply) = served.into_parts();
        let Asked::Out(_, log) = replace(&mut self.asked, Asked::Nothing) else {
            unreachable!()
        };
        self.contents = Contents::Here(unit);
        self.asked = Asked::Served(req, reply, log);
    }
}

// A log for the end of a service.
fn end_log(alloc: Global) -> Result<Effects, NoMemory>
    ensures { IfOk result IsForEnd }
{
    let mut log = Effects::new(alloc);
    log.reserve(END_EFFECTS)?;
    Ok(log)
}

// A copy of a request, and a log for the end of its service.
fn ready_for(alloc: Global, req: &Req) -> Result<(Req, Effects), NoMemory>
    ensures asked { IfOk result (λ ready. ready.0 ≡ req.now) }
    ensures log { IfOk result (λ ready. IsForEnd ready.1) }
{
    let log = end_log(alloc)?;
    Ok((req.copy()?, log))
}

// The same reply again.
fn copy_reply(reply: &Reply) -> Result<Reply, NoMemory>
    ensures { IfOk result (λ copy. copy ≡ reply.now) }
{
    Ok(Reply {
        cond: reply.cond,
        count: reply.count,
        bytes: reply.bytes.copy()?,
    })
}

/// The units of the script before their first service.
pub(crate) fn first_units(alloc: Global, decls: &UnitDecls) -> Result<Vec<KeptUnit>, NoMemory>
    ensures units { IfOk result (λ units. map unit_of units.items ≡ map first_unit decls.now) }
    ensures home { IfOk result (λ units. AllByRecursion IsIn units.items) }
{
    let mut units = Vec::new(alloc);
    for decl in decls.as_slice() {
        units.push(KeptUnit::new(alloc, decl)?)?;
    }
    Ok(units)
}
