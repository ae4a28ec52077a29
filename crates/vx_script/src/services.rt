//! The services that a script may call.

ghost use Rattle.std.specs.Prelude.{◌≡◌};
ghost use Rattle.vx_base.specs.Services.{service_rows};
ghost use Rattle.vx_table.specs.Reading.{BeginsCall, read_call, toks};

use std::marker::Model;
use vx_base::Call;
use vx_table::{CallFail, ServiceTable, service_table};
use vx_text::Token;

/// The table of all services, which is made once a text.
#[derive(Drop)]
pub struct Services {
    table: ServiceTable<36>,
}

impl Model for Services {
    ghost use Rattle.std.specs.Prelude.{◌≡◌, List};
    ghost use Rattle.vx_base.specs.Services.{ServiceRow, service_rows};

    ghost Value = { List ServiceRow };

    ghost view = { λ s. s.table };

    ghost invariant = { λ s. s.table ≡ service_rows };
}

impl Services {
    /// The table. Takes no memory.
    pub fn new() -> Services
        ensures { result ≡ service_rows }
    {
        Services {
            table: service_table(),
        }
    }

    /// The call that tokens are, or the first fault in it.
    pub fn read_call(&self, tokens: &[Token]) -> Result<Call, CallFail>
        requires { BeginsCall (toks tokens.now) }
        ensures { result ≡ read_call service_rows (toks tokens.now) }
    {
        self.table.read_call(tokens)
    }
}
