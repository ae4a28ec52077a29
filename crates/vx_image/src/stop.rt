//! Why a run of local statements stops.

use vx_base::Call;

/// Why a run of local statements stopped.
#[derive(Clone, Copy, Debug)]
pub enum Stop {
    /// At a service, with the values of its arguments computed.
    Call(Call),
    /// At RETURN.
    Return,
    /// Past the last statement.
    End,
    /// After 1,000 local statements.
    Local,
}
