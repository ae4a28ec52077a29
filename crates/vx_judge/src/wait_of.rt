//! What services wait for.

ghost use Rattle.std.specs.Prelude.{◌≡◌};
ghost use Rattle.vx_laws.specs.Values.{wait_of as wait_of_call};

use crate::args::number;
use vx_base::{Call, Service, Wait};

/// What a service waits for, if it does.
pub fn wait_of(call: Call) -> Option<Wait>
    ensures { result ≡ wait_of_call call }
{
    let a0 = number(call.args.a0);
    let a1 = number(call.args.a1);
    let a3 = number(call.args.a3);
    match call.service {
        Service::WaitFr => Some(Wait::Flags(a0, 1u32 << (a0 % 32), false)),
        Service::WflOr => Some(Wait::Flags(a0, a1, false)),
        Service::WflAnd => Some(Wait::Flags(a0, a1, true)),
        Service::Synch => Some(Wait::Synch(a0, a1)),
        Service::QioW => Some(Wait::Synch(a0, a3)),
        Service::Hiber => Some(Wait::Hiber),
        _ => None,
    }
}
