//! Whether a process has an event, if the process alone tells it.

ghost use Rattle.std.specs.Prelude.{◌≡◌, ◌≤◌};
ghost use Rattle.vx_procs.specs.Own.{hold_own, is_synchronized_own, own_event, own_phase, own_run, own_wait};
ghost use Rattle.vx_procs.specs.View.{process};
ghost use Rattle.vx_record.specs.Flags.{is_filled, local_flags};
ghost use Rattle.vx_image.specs.Storage.{status_at};

use crate::process::Proc;
use vx_base::{Phase, Routine, Wait};
use vx_flags::Flags;

/// The first event flag of the common clusters.
const FIRST_COMMON: u32 = 64;

/// The last I/O status block.
const LAST_BLOCK: u32 = 32;

impl<R: Routine> Proc<R> {
    /// Its flags 0 to 31 or 32 to 63, those in which an event flag lies.
    pub(crate) fn local_flags(&self, efn: u32) -> &Flags
        ensures { result.now ≡ local_flags (process self.now) efn }
    {
        if efn < 32 {
            &self.cluster_0
        } else {
            &self.cluster_1
        }
    }

    // Whether its flags hold what a mask asks: all of them, or any.
    fn hold(&self, efn: u32, mask: u32, all: bool) -> bool
        ensures { result ≡ hold_own (process self.now) efn mask all }
    {
        let flags = self.local_flags(efn);
        if all {
            flags.all(mask)
        } else {
            flags.any(mask)
        }
    }

    /// Whether one of its I/O status blocks, 1 to 32, is filled.
    pub(crate) fn is_filled(&self, iosb: u32) -> bool
        requires above { 1 ≤ iosb }
        requires within { iosb ≤ 32 }
        ensures { result ≡ is_filled (status_at (process self.now).store iosb) }
    {
        self.store.iosb(iosb).0.is_some()
    }

    // Whether one of its flags is set, and a status block, if one is named, filled.
    fn is_synchronized(&self, efn: u32, iosb: u32) -> bool
        requires { iosb ≤ 32 }
        ensures { result ≡ is_synchronized_own (process self.now) efn iosb }
    {
        self.local_flags(efn).test((efn % 32) as u8) && (iosb == 0 || self.is_filled(iosb))
    }

    // Whether a wait of its top frame is over.
    fn own_wait(&self, wait: Wait) -> Option<bool>
        ensures { result ≡ own_wait (process self.now) wait }
    {
        match wait {
            Wait::Flags(efn, mask, all) => {
                if efn < FIRST_COMMON {
                    Some(self.hold(efn, mask, all))
                } else {
                    None
                }
            }
            Wait::Synch(efn, iosb) => {
                if efn < FIRST_COMMON && iosb <= LAST_BLOCK {
                    Some(self.is_synchronized(efn, iosb))
                } else {
                    None
                }
            }
            Wait::Hiber => Some(self.wake_pending),
        }
    }

    // Whether it can be run down, if it has no frame.
    fn own_phase(&self) -> Option<bool>
        ensures { result ≡ own_phase (process self.now).phase }
    {
        match self.phase {
            Phase::Draining(_) => None,
            Phase::Deleted => Some(false),
            Phase::Alive | Phase::Handlers(_) => Some(true),
        }
    }

    // Whether it can go on, or be run down.
    fn own_run(&self) -> Option<bool>
        ensures { result ≡ own_run (process self.now) (process self.now).frames }
    {
        let Some(frame) = self.frames.top() else {
            return self.own_phase();
        };
        match frame.wait {
            Some(wait) => self.own_wait(wait),
            None => Some(true),
        }
    }

    /// Whether it has an event; None if others must be asked.
    pub(crate) fn own_event(&self) -> Option<bool>
        ensures { result ≡ own_event (process self.now) }
    {
        if self.suspended {
            return Some(false);
        }
        if self.deliverable().is_some() {
            return Some(true);
        }
        self.own_run()
    }
}
