//! The exit handlers of a process.

ghost use Rattle.std.specs.Prelude.{◌≡◌, None, false, option_map};
ghost use Rattle.std.specs.List.{find};
ghost use Rattle.vx_base.specs.Modes.{is_kernel};
ghost use Rattle.vx_record.specs.State.{IsProcess, process_at};
ghost use Rattle.vx_record.specs.Rundown.{with_handler};
ghost use Rattle.vx_exits.specs.Exits.{handed, known};
ghost use Rattle.vx_procs.specs.Handlers.{is_sought, without_sought};
ghost use Rattle.vx_procs.specs.Kernel.{changed};
ghost use Rattle.vx_procs.specs.Ready.{HasHandlerRoom};
ghost use Rattle.vx_procs.specs.View.{books_of, process};

use crate::process::Proc;
use crate::procs::Core;
use vx_base::{Entry, Id, Mode, Pid, Routine};

/// Which exit handlers are looked for.
#[derive(Clone, Copy, Drop)]
pub enum Sought {
    /// Those of a mode with a tag ($CANEXH of a routine).
    With(Mode, Entry),
    /// Those of a mode.
    Of(Mode),
    /// All.
    Any,
}

impl<R: Routine> Proc<R> {
    // Takes out the newest of the exit handlers that are looked for.
    fn take_handler(&mut self, which: Sought) -> Option<(Id, R)>
        ensures handler { option_map (handed R.tagged) result ≡ option_map known (find (is_sought which) (process self.old).handlers) }
        ensures after { process self.new ≡ without_sought which (process self.old) }
        ensures books { books_of self.new ≡ books_of self.old }
    {
        match which {
            Sought::With(mode, tag) => match self.exits.cancel(mode, tag) {
                Ok(taken) => Some(taken),
                Err(_) => None,
            },
            Sought::Of(mode) => self.exits.pop(mode),
            Sought::Any => self.exits.pop_any(),
        }
    }
}

impl<R: Routine> Core<R> {
    /// Declares an exit handler of a process, as the newest ($DCLEXH), in a mode other than kernel mode. Takes no memory.
    pub fn declare_handler(&mut self, p: Pid, id: Id, mode: Mode, routine: R)
        requires made { IsProcess self.old.state p }
        requires outside { is_kernel mode ≡ false }
        requires room { HasHandlerRoom self.old p }
        ensures { self.new ≡ changed self.old p (with_handler (record { id = id; mode = mode; tag = R.tagged routine })) }
    {
        let _declared = self.procs.at_mut(p).exits.declare(id, mode, routine);
    }

    /// Takes out the newest of the exit handlers of a process that are looked for, with its routine: the handler is entered.
    pub fn take_handler(&mut self, p: Pid, which: Sought) -> Option<(Id, R)>
        requires { IsProcess self.old.state p }
        ensures handler { option_map (handed R.tagged) result ≡ option_map known (find (is_sought which) (process_at self.old.state p).handlers) }
        ensures after { self.new ≡ changed self.old p (without_sought which) }
        ensures kept { result ≡ None → self.new ≡ self.old }
    {
        self.procs.at_mut(p).take_handler(which)
    }

    /// Takes out the newest of the exit handlers of a process that are looked for, and gives its id. Its routine is never entered.
    pub fn drop_handler(&mut self, p: Pid, which: Sought) -> Option<Id>
        requires { IsProcess self.old.state p }
        ensures id { result ≡ option_map (λ h. h.id) (find (is_sought which) (process_at self.old.state p).handlers) }
        ensures after { self.new ≡ changed self.old p (without_sought which) }
        ensures kept { result ≡ None → self.new ≡ self.old }
    {
        let (id, _routine) = self.take_handler(p, which)?;
        Some(id)
    }
}
