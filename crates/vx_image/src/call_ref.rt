//! A call that stands in a list of statements.

ghost use Rattle.std.specs.Prelude.{◌≡◌};
ghost use Rattle.vx_image.specs.Local.{computed, computed_arg};
ghost use Rattle.vx_image.specs.Small.{args_in, own};

use crate::local::value_of;
use crate::stmts::{Head, arg_at, args_at};
use crate::store::Store;
use crate::terms::Terms;
use std::marker::Model;
use vx_base::{Arg, Args, Call, Operand, Pid, Service};

/// A call that was read from a list, in which its arguments stand. Contracts see the `Call`.
#[derive(Drop)]
pub struct CallRef<'a> {
    terms: &'a Terms,
    head: Head,
    service: Service,
}

impl<'a> Model for CallRef<'a> {
    ghost use Rattle.vx_base.specs.declared.call.Call.{Call};
    ghost use Rattle.vx_image.specs.Small.{args_in, own};

    ghost Value = { Call };

    ghost view = { λ c. record { service = c.service; args = args_in (own c.terms.now c.head) } };
}

// An argument with its value in place of what it names.
fn computed_arg(store: &Store, prm: u32, p: Pid, arg: Arg) -> Arg
    ensures { result ≡ computed_arg (record { prm = prm; p = p }) store.now arg }
{
    match arg {
        Arg::Value(x) => Arg::Value(Operand::Num(value_of(store, prm, p, x))),
        _ => arg,
    }
}

impl<'a> CallRef<'a> {
    /// The call of a service whose arguments are these terms.
    pub(crate) fn new(terms: &'a Terms, head: Head, service: Service) -> CallRef<'a>
        ensures { result ≡ record { service = service; args = args_in (own terms.now head) } }
    {
        CallRef {
            terms,
            head,
            service,
        }
    }

    /// The whole call.
    pub fn call(&self) -> Call
        ensures { result ≡ self.now }
    {
        Call {
            service: self.service,
            args: args_at(self.terms, &self.head),
        }
    }

    /// The call with the values of its arguments: `prm` is the parameter of the top frame, `p` the process.
    pub(crate) fn computed(&self, store: &Store, prm: u32, p: Pid) -> Call
        ensures { result ≡ computed (record { prm = prm; p = p }) store.now self.now }
    {
        let arg = |k: u8| computed_arg(store, prm, p, arg_at(self.terms, &self.head, k));
        Call {
            service: self.service,
            args: Args {
                a0: arg(0),
                a1: arg(1),
                a2: arg(2),
                a3: arg(3),
                a4: arg(4),
                a5: arg(5),
                a6: arg(6),
                a7: arg(7),
                a8: arg(8),
            },
        }
    }
}
