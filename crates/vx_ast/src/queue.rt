//! The queue: one list, in order of queuing.

ghost use Rattle.std.specs.Prelude.{◌≡◌, ◌<◌, ◌≤◌, ◌+◌, ◌++◌, ◌∷◌, [], length, count_by, IfOk, OnOk, OnErr, option_map};
ghost use Rattle.std.specs.List.{find};
ghost use Rattle.vx_base.specs.Lists.{less};
ghost use Rattle.vx_base.specs.Pieces.{all_on, is_enabled_in, with_enable};
ghost use Rattle.vx_base.specs.Queues.{is_ast_reached, is_of_mode, may_start, deliverable};
ghost use Rattle.vx_ast.specs.Queue.{less_deliverable, first_in};

use crate::by_mode::{place_of_mode, place_within};
use crate::delivery::Delivery;
use crate::snapshot::AstQueueSnapshot;
use std::alloc::Global;
use std::marker::Model;
use vx_base::{Id, Mode, NoMemory, Reserved, Routine, at_place};
use vx_same::ReservedSnapshot;

/// The queued ASTs of one process, and the modes that have AST delivery enabled.
#[derive(Drop)]
pub struct AstQueue<R: Routine> {
    pub(crate) items: Reserved<Delivery<R>>,
    pub(crate) kernel: bool,
    pub(crate) exec: bool,
    pub(crate) supervisor: bool,
    pub(crate) user: bool,
}

impl<R: Routine> Model for AstQueue<R> {
    ghost use Rattle.vx_ast.specs.Queue.{Queue};

    ghost Value = { Queue };

    ghost view = { λ a. record { items = a.items.items; enables = record { kernel = a.kernel; exec = a.exec; supervisor = a.supervisor; user = a.user }; capacity = a.items.capacity } };
}

impl<R: Routine> AstQueue<R> {
    /// No ASTs, all four modes enabled, and room for none. Takes no memory.
    pub fn new(alloc: Global) -> AstQueue<R>
        ensures { result ≡ record { items = []; enables = all_on; capacity = 0 } }
    {
        AstQueue {
            items: Reserved::new(alloc),
            kernel: true,
            exec: true,
            supervisor: true,
            user: true,
        }
    }

    /// Makes room for n ASTs more, or changes nothing.
    pub fn reserve(&mut self, n: u32) -> Result<(), NoMemory>
        ensures same { self.new ≡ record self.old { capacity = self.new.capacity } }
        ensures kept { self.old.capacity ≤ self.new.capacity }
        ensures ok { OnOk result (length self.new.items + n ≤ self.new.capacity) }
        ensures err { OnErr result (self.new ≡ self.old) }
    {
        self.items.reserve(n)
    }

    /// Queues an AST ($DCLAST, or the AST of a request, timer or attention entry). Takes no memory.
    pub fn put(&mut self, id: Id, mode: Mode, routine: R, charged: bool)
        requires { length self.old.items < self.old.capacity }
        ensures { self.new ≡ record self.old { items = self.old.items ++ record { id = id; mode = mode; tag = R.tagged routine; charged = charged } ∷ [] } }
    {
        self.items.put(Delivery::new(id, mode, routine, charged))
    }

    /// Enables or disables AST delivery in a mode ($SETAST), and tells how it was.
    pub fn enable(&mut self, mode: Mode, on: bool) -> bool
        ensures was { result ≡ is_enabled_in self.old.enables mode }
        ensures after { self.new ≡ record self.old { enables = with_enable self.old.enables mode on } }
    {
        let was = self.is_enabled(mode);
        match mode {
            Mode::Kernel => self.kernel = on,
            Mode::Exec => self.exec = on,
            Mode::Super => self.supervisor = on,
            Mode::User => self.user = on,
        }
        was
    }

    /// Whether AST delivery is enabled in a mode.
    pub fn is_enabled(&self, mode: Mode) -> bool
        ensures { result ≡ is_enabled_in self.now.enables mode }
    {
        match mode {
            Mode::Kernel => self.kernel,
            Mode::Exec => self.exec,
            Mode::Super => self.supervisor,
            Mode::User => self.user,
        }
    }

    /// The AST that may start if the process runs in mode `current`, and `active` is the innermost mode with an active
    /// AST: of the innermost mode that has one, the first. None exactly where there is none.
    pub fn deliverable(&self, current: Mode, active: Option<Mode>) -> Option<Id>
        ensures { result ≡ option_map (λ q. q.id) (deliverable self.now.enables current active self.now.items) }
    {
        let mode = self.mode_to_start(current, active)?;
        let first = self.first_of_mode(mode)?;
        Some(first.id())
    }

    /// Takes out the AST that may start, as `deliverable` has it.
    #[tactic(auto, using(crate::proofs::Started::less_started))]
    pub fn take(&mut self, current: Mode, active: Option<Mode>) -> Option<Delivery<R>>
        ensures found { result ≡ deliverable self.old.enables current active self.old.items }
        ensures after { self.new ≡ record self.old { items = less_deliverable self.old.enables current active self.old.items } }
    {
        let mode = self.mode_to_start(current, active)?;
        let place = place_of_mode(self.items.as_slice(), mode);
        self.items.take(place)
    }

    /// Takes out the first AST of a mode or an outer one, in order of queuing: rundown drops them so.
    pub fn flush_first(&mut self, mode: Mode) -> Option<Delivery<R>>
        ensures found { result ≡ find (is_ast_reached mode) self.old.items }
        ensures after { self.new ≡ record self.old { items = less (is_ast_reached mode) self.old.items } }
    {
        let place = place_within(self.items.as_slice(), mode);
        self.items.take(place)
    }

    /// The same ASTs put away, and the same enables. Each routine is made from its tag.
    pub fn snapshot(&self, alloc: Global) -> Result<AstQueueSnapshot<R>, NoMemory>
        ensures { IfOk result (λ snapshot. snapshot ≡ self.now) }
    {
        Ok(AstQueueSnapshot {
            items: ReservedSnapshot::new(alloc, &self.items)?,
            kernel: self.kernel,
            exec: self.exec,
            supervisor: self.supervisor,
            user: self.user,
        })
    }

    /// How many ASTs are queued.
    pub fn len(&self) -> usize
        ensures { result ≡ length self.now.items }
    {
        self.items.len()
    }

    /// How many of them are charged to the AST limit.
    pub fn charged(&self) -> usize
        ensures { result ≡ count_by (λ q. q.charged) self.now.items }
    {
        self.items
            .as_slice()
            .iter()
            .filter(|d| d.is_charged())
            .count()
    }

    // The first AST of a mode.
    fn first_of_mode(&self, mode: Mode) -> Option<&Delivery<R>>
        ensures { option_map (λ d. d.now) result ≡ find (is_of_mode mode) self.now.items }
    {
        let items = self.items.as_slice();
        at_place(items, place_of_mode(items, mode))
    }

    // The mode of the AST that may start.
    fn mode_to_start(&self, current: Mode, active: Option<Mode>) -> Option<Mode>
        ensures { deliverable self.now.enables current active self.now.items ≡ first_in result self.now.items }
    {
        if self.may_start(Mode::Kernel, current, active)
            && self.first_of_mode(Mode::Kernel).is_some()
        {
            return Some(Mode::Kernel);
        }
        if self.may_start(Mode::Exec, current, active) && self.first_of_mode(Mode::Exec).is_some() {
            return Some(Mode::Exec);
        }
        if self.may_start(Mode::Super, current, active)
            && self.first_of_mode(Mode::Super).is_some()
        {
            return Some(Mode::Super);
        }
        if self.may_start(Mode::User, current, active) {
            Some(Mode::User)
        } else {
            None
        }
    }

    // Whether an AST of the mode may start.
    fn may_start(&self, mode: Mode, current: Mode, active: Option<Mode>) -> bool
        ensures { result ≡ may_start self.now.enables current active mode }
    {
        let free = match active {
            None => true,
            Some(innermost) => mode.rank() < innermost.rank(),
        };
        self.is_enabled(mode) && mode.rank() <= current.rank() && free
    }
}
