//! What is remembered of the processes.

ghost use Rattle.std.specs.Prelude.{◌≡◌, IfSome, Some};
ghost use Rattle.vx_procs.specs.Own.{AreOwn, block_of, own_event};
ghost use Rattle.vx_record.specs.State.{IsProcess, process_at};

use crate::procs::Core;
use vx_base::{Pid, Routine};

impl<R: Routine> Core<R> {
    /// Brings up to date what is remembered of the processes. It looks only at those that may have changed. Takes no memory.
    pub fn settle(&mut self)
        ensures { self.new ≡ self.old }
    {
        self.procs.refresh();
    }

    /// Whether a process has an event, if it alone tells that and has not changed since `settle`. Takes no memory, and looks at no
    /// process.
    pub fn known_event(&self, p: Pid) -> Option<bool>
        requires { IsProcess self.now.state p }
        ensures { IfSome result (λ has. own_event (process_at self.now.state p) ≡ Some has) }
    {
        self.procs.event_of(p)
    }

    /// How many processes of a block have an event, if each alone tells whether it has one. The blocks are of 32 processes, and
    /// numbered from 0. None if that is not known without a look at each. Takes no memory.
    pub fn block_events(&self, b: u32) -> Option<u32>
        ensures { IfSome result (λ n. AreOwn n (block_of b self.now.state.procs)) }
    {
        self.procs.events_in(b as usize)
    }
}
