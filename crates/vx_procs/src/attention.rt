//! Attention entries: made, fired and dropped.

ghost use Rattle.std.specs.Prelude.{◌≡◌, ◌+◌, ◌≤◌, false, true, is_some, length, option_map};
ghost use Rattle.std.specs.List.{find};
ghost use Rattle.vx_record.specs.Cancel.{is_attention_on};
ghost use Rattle.vx_record.specs.Charges.{ast_need, exceeds};
ghost use Rattle.vx_record.specs.Mailboxes.{is_attention_at, this_attention};
ghost use Rattle.vx_record.specs.Requests.{with_attention};
ghost use Rattle.vx_record.specs.State.{IsProcess};
ghost use Rattle.vx_procs.specs.Attention.{fired_attention_if, without_attention};
ghost use Rattle.vx_procs.specs.Kernel.{with_state};
ghost use Rattle.vx_procs.specs.Ready.{HasSpares};

use crate::process::ast_need;
use crate::procs::Core;
use vx_base::{BoxNo, Func, Id, Pid, Routine};
use vx_mailbox::AttentionEntry;

impl<R: Routine> Core<R> {
    /// How many attention entries there are.
    pub fn attention_count(&self) -> usize
        ensures { result ≡ length self.now.state.attention }
    {
        self.attention.len()
    }

    /// The first attention entry at a mailbox that asks by this function. None exactly where there is none.
    pub fn first_attention(&self, b: BoxNo, func: Func) -> Option<Id>
        ensures { result ≡ option_map (λ a. a.id) (find (is_attention_at b func) self.now.state.attention) }
    {
        self.attention.first_at(b, func)
    }

    /// The first attention entry of a process on a channel. None exactly where there is none.
    pub fn first_attention_on(&self, p: Pid, chan: u32) -> Option<Id>
        ensures { result ≡ option_map (λ a. a.id) (find (is_attention_on p chan) self.now.state.attention) }
    {
        self.attention.first_on(p, chan)
    }

    /// Opens an attention entry ($QIO) with a place for its AST, and charges its process an AST. Takes no memory.
    pub fn add_attention(&mut self, entry: AttentionEntry<R>)
        requires made { IsProcess self.old.state entry.p }
        requires spares { HasSpares self.old }
        requires room { length self.old.state.attention + 1 ≤ self.old.attention }
        requires within { exceeds self.old.state entry.p (ast_need true) ≡ false }
        ensures { self.new ≡ with_state self.old (with_attention self.old.state entry) }
    {
        let p = entry.p();
        self.procs.at_mut(p).charge(ast_need(true));
        self.attention.add(entry);
        self.short = Some(p);
    }

    /// Takes out the attention entry with an id; its AST is queued, charged as it was, in the place that was made for it. False
    /// exactly where there is none. Takes no memory, and no spare room.
    pub fn fire_attention(&mut self, id: Id) -> bool
        ensures found { result ≡ is_some (find (this_attention id) self.old.state.attention) }
        ensures after { self.new ≡ with_state self.old (fired_attention_if self.old.state (find (this_attention id) self.old.state.attention)) }
    {
        let Some(entry) = self.attention.take(id) else {
            return false;
        };
        let (id, p, mode) = (entry.id(), entry.p(), entry.mode());
        self.procs
            .at_mut(p)
            .call_attention(id, mode, entry.into_routine());
        true
    }

    /// Takes out the attention entry with an id, if there is one, and gives its charge back. Its routine is never entered.
    pub fn drop_attention(&mut self, id: Id)
        ensures { self.new ≡ with_state self.old (without_attention id self.old.state) }
    {
        let Some(entry) = self.attention.take(id) else {
            return;
        };
        let p = entry.p();
        self.procs.at_mut(p).release(ast_need(true));
    }
}
