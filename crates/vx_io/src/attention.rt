//! Attention entries: set, and fired when a mailbox has what they ask for.

ghost use Rattle.std.specs.Prelude.{◌≡◌, ◌+◌, ◌≤◌, ◌<◌, ◌∷◌, [], false, true, None, length};
ghost use Rattle.std.specs.List.{find};
ghost use Rattle.vx_base.specs.declared.effects.Effect.TheVariants.{Fire, Que};
ghost use Rattle.vx_base.specs.declared.request.Device.TheVariants.{Mailbox};
ghost use Rattle.vx_record.specs.Charges.{ast_need, exceeds, is_attention};
ghost use Rattle.vx_record.specs.Mailboxes.{call_attention, this_attention};
ghost use Rattle.vx_record.specs.Requests.{attention_opened, attention_set, new_attention};
ghost use Rattle.vx_record.specs.Sound.{AreOrdered, BoxStands, attention_id, ground};
ghost use Rattle.vx_record.specs.State.{IsProcess, next_id};
ghost use Rattle.vx_procs.specs.Kernel.{Acts, Fits, told};
ghost use Rattle.vx_procs.specs.Ready.{HasSpares};
ghost use Rattle.vx_io.specs.Asking.{IsInRange, IsOpening, asked};
ghost use Rattle.vx_io.specs.Boxes.{attend_by, fire_found, is_answered};

use crate::asking::Asking;
use crate::finish::fill_status;
use vx_base::{BoxNo, Cond, Effect, Func, Id, Opened, Pid, Routine};
use vx_ctl::set_where_named;
use vx_mailbox::AttentionEntry;
use vx_procs::Core;

fn tell_fired<R: Routine>(core: &mut Core<R>, id: Id)
    requires { Fits core.old (Fire id ∷ Que id ∷ []) }
    ensures { core.new ≡ told core.old (Fire id ∷ Que id ∷ []) }
{
    core.tell(Effect::Fire(id));
    core.tell(Effect::Que(id));
}

// FIRE and QUE: the attention entry with an id is out, and its AST is queued.
fn fire<R: Routine>(core: &mut Core<R>, id: Id)
    requires room { Fits core.old (fire_found core.old.state (find (this_attention id) core.old.state.attention)).effects }
    ensures { Acts (fire_found core.old.state (find (this_attention id) core.old.state.attention)) core.old core.new }
{
    if core.fire_attention(id) {
        tell_fired(core, id);
    }
}

/// Each entry at a mailbox that asks by this function fires, in id order. Takes no memory.
pub(crate) fn call_attention<R: Routine>(core: &mut Core<R>, b: BoxNo, func: Func)
    requires entries { AreOrdered attention_id 0 core.old.state.next core.old.state.attention }
    requires room { Fits core.old (call_attention core.old.state b func).effects }
    ensures does { Acts (call_attention core.old.state b func) core.old core.new }
{
    'entries: while let Some(id) = core.first_attention(b, func) {
        fire(core, id);
    }
}

// Whether there is already what is asked for: a message, or a read that waits.
#[tactic(auto, using(crate::proofs::Asked::some_waits))]
fn is_answered<R: Routine>(core: &Core<R>, b: BoxNo, func: Func) -> bool
    requires { BoxStands (ground core.now.state) b }
    ensures { result ≡ is_answered core.now.state b func }
{
    match func {
        Func::WrtAttn => core.has_messages(b),
        _ => core.first_read(b).is_some(),
    }
}

// An attention entry fires at once, if there is already what it asks for.
fn attend<R: Routine>(core: &mut Core<R>, b: BoxNo, func: Func, id: Id)
    requires stands { BoxStands (ground core.old.state) b }
    requires room { Fits core.old (attend_by core.old.state b func id).effects }
    ensures { Acts (attend_by core.old.state b func id) core.old core.new }
{
    if is_answered(core, b, func) {
        fire(core, id);
    }
}

// OPEN: an attention entry is there.
fn open<R: Routine>(core: &mut Core<R>, p: Pid, ask: &Asking, b: BoxNo, routine: R) -> Id
    requires made { IsProcess core.old.state p }
    requires spares { HasSpares core.old }
    requires entry { length core.old.state.attention + 1 ≤ core.old.attention }
    requires ids { core.old.state.next < 4294967295 }
    requires within { exceeds core.old.state p (ast_need true) ≡ false }
    requires room { Fits core.old (attention_opened core.old.state p (asked ask.now None) (new_attention core.old.state p (asked ask.now None) b (R.tagged routine))).effects }
    ensures id { result ≡ next_id core.old.state }
    ensures does { Acts (attention_opened core.old.state p (asked ask.now None) (new_attention core.old.state p (asked ask.now None) b (R.tagged routine))) core.old core.new }
{
    let mode = core.current_mode(p);
    let id = core.new_id();
    core.tell(Effect::Open {
        id,
        kind: Opened::Attn,
        p,
        mode: Some(mode),
        n: 0,
    });
    core.add_attention(AttentionEntry::new(id, p, ask.chan, b, ask.func, mode, routine));
    id
}

/// Sets an attention entry, which is answered at once; and it fires at once if there is already what it asks for.
pub(crate) fn set_attention<R: Routine>(
    core: &mut Core<R>,
    p: Pid,
    ask: Asking,
    b: BoxNo,
    routine: R,
)
    requires opening { IsOpening core.old p (Mailbox b) ask.func true ask.len }
    requires range { IsInRange ask }
    requires func { is_attention ask.func ≡ true }
    requires room { Fits core.old (attention_set core.old.state p (asked ask None) (new_attention core.old.state p (asked ask None) b (R.tagged routine))).effects }
    ensures { Acts (attention_set core.old.state p (asked ask None) (new_attention core.old.state p (asked ask None) b (R.tagged routine))) core.old core.new }
{
    let id = open(core, p, &ask, b, routine);
    fill_status(core, p, ask.iosb, Cond::Normal, 0, 0);
    set_where_named(core, p, ask.efn);
    attend(core, b, ask.func, id);
}
