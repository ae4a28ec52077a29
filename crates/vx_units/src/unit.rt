//! What a device unit does.

ghost use Rattle.std.specs.Prelude.{◌≡◌, ◌<◌, OnOk, OnErr, IsTrue, IsSome, None};
ghost use Rattle.vx_base.specs.Serving.{serve};
ghost use Rattle.vx_units.specs.Units.{Serving, is_for_unit, served, done};

use vx_base::{NoMemory, Reply, Req};

/// A device unit, which serves reads and writes of at most 2,048 bytes.
pub trait DeviceUnit {
    /// What it holds, what it holds when the service that pends is done, if one does, and whether it is ready for one.
    ghost serving: { Self → Serving };

    /// Makes ready to serve a request: finds the memory, or changes nothing. The unit and its pending service stay as they
    /// were.
    fn ready(&mut self, req: &Req) -> Result<(), NoMemory>
        requires { IsTrue (is_for_unit req.now) }
        ensures unit { (serving self.new).unit ≡ (serving self.old).unit }
        ensures pending { (serving self.new).pending ≡ (serving self.old).pending }
        ensures ok { OnOk result (IsTrue (serving self.new).ready) }
        ensures err { OnErr result (serving self.new ≡ serving self.old) };

    /// Serves a request that the unit is ready for, and leaves the service pending: the unit stays as it was until `settle`.
    /// Takes no memory.
    fn serve(&mut self, req: &Req) -> Reply
        requires request { IsTrue (is_for_unit req.now) }
        requires ready { IsTrue (serving self.old).ready }
        requires idle { (serving self.old).pending ≡ None }
        requires count { (serving self.old).unit.services < 4294967295 }
        ensures reply { result ≡ (serve (serving self.old).unit req.now).reply }
        ensures after { serving self.new ≡ served (serving self.old) req.now };

    /// Makes the unit what it is after the pending service. Takes no memory.
    fn settle(&mut self)
        requires { IsSome (serving self.old).pending }
        ensures { serving self.new ≡ done (serving self.old) };
}
