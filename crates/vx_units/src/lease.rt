//! A unit that is taken out of an executive to be served.

ghost use Rattle.std.specs.Prelude.{◌≡◌, ◌+◌};
ghost use Rattle.vx_units.specs.Any.{seen};
ghost use Rattle.vx_units.specs.Leases.{HasServed, IsReadyFor, serve_lease};

use crate::any::AnyUnit;
use crate::unit::DeviceUnit;
use std::marker::Model;
use vx_base::{Id, Reply, Req, UnitNo};

/// A unit that was taken out of an executive, with the request that it is to serve.
#[derive(Drop)]
pub struct UnitLease {
    unit: UnitNo,
    req: Req,
    contents: AnyUnit,
}

impl Model for UnitLease {
    ghost use Rattle.vx_units.specs.Leases.{Lease};

    ghost Value = { Lease };

    ghost use Rattle.vx_units.specs.Any.{seen};
    ghost use Rattle.vx_units.specs.Leases.{IsReadyFor};

    ghost view = { λ l. record { unit = l.unit; req = l.req; contents = (seen l.contents).unit } };

    ghost invariant = { λ l. IsReadyFor (seen l.contents) l.req };
}

impl UnitLease {
    /// A unit that is ready for a request. Takes no memory.
    pub fn new(unit: UnitNo, req: Req, contents: AnyUnit) -> UnitLease
        requires { IsReadyFor (seen contents) req }
        ensures { result ≡ record { unit = unit; req = req; contents = (seen contents).unit } }
    {
        UnitLease {
            unit,
            req,
            contents,
        }
    }

    /// The unit.
    pub fn unit(&self) -> UnitNo
        ensures { result ≡ self.now.unit }
    {
        self.unit
    }

    /// The id of the request.
    pub fn id(&self) -> Id
        ensures { result ≡ self.now.req.id }
    {
        self.req.id
    }

    /// The number of the service, from 1.
    pub fn number(&self) -> u32
        ensures { result ≡ self.now.contents.services + 1 }
    {
        self.contents.services() + 1
    }

    /// Serves the request. Takes no memory.
    pub fn serve(self) -> ServedUnit
        ensures { result ≡ serve_lease self }
    {
        let UnitLease {
            unit,
            req,
            mut contents,
        } = self;
        let reply = contents.serve(&req);
        ServedUnit {
            unit,
            req,
            contents,
            reply,
        }
    }
}

/// A unit that has served its request, with the reply. The service is pending: the unit is settled at its DON.
#[derive(Drop)]
pub struct ServedUnit {
    unit: UnitNo,
    req: Req,
    contents: AnyUnit,
    reply: Reply,
}

impl Model for ServedUnit {
    ghost use Rattle.vx_units.specs.Leases.{LeaseServed};

    ghost Value = { LeaseServed };

    ghost use Rattle.vx_units.specs.Any.{seen};
    ghost use Rattle.vx_units.specs.Leases.{HasServed};

    ghost view = { λ s. record { lease = record { unit = s.unit; req = s.req; contents = (seen s.contents).unit }; reply = s.reply } };

    ghost invariant = { λ s. HasServed (seen s.contents) s.req s.reply };
}

impl ServedUnit {
    /// The unit.
    pub fn unit(&self) -> UnitNo
        ensures { result ≡ self.now.lease.unit }
    {
        self.unit
    }

    /// The id of the request.
    pub fn id(&self) -> Id
        ensures { result ≡ self.now.lease.req.id }
    {
        self.req.id
    }

    /// The unit with its service pending, the request and the reply. Takes no memory.
    pub fn into_parts(self) -> (AnyUnit, Req, Reply)
        ensures contents { (seen result.0).unit ≡ self.lease.contents }
        ensures req { result.1 ≡ self.lease.req }
        ensures reply { result.2 ≡ self.reply }
        ensures served { HasServed (seen result.0) result.1 result.2 }
    {
        (self.contents, self.req, self.reply)
    }
}
