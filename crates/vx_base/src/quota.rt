//! Quotas and privileges.

/// Amounts of the five quotas: ASTs (ASTLM), buffered requests (BIOLM), direct requests (DIOLM), bytes of buffered requests
/// (BYTLM) and timer requests (TQELM).
#[derive(Clone, Copy, Debug, PartialEq, Eq)]
pub struct Need {
    pub ast: u32,
    pub bio: u32,
    pub dio: u32,
    pub byt: u32,
    pub tqe: u32,
}

/// Which privileges are held: CMEXEC, CMKRNL, GROUP, PRMCEB, PRMMBX and WORLD.
#[derive(Clone, Copy, Debug, PartialEq, Eq)]
pub struct Privs {
    pub cmexec: bool,
    pub cmkrnl: bool,
    pub group: bool,
    pub prmceb: bool,
    pub prmmbx: bool,
    pub world: bool,
}
