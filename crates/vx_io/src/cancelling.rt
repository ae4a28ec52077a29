//! What a process asked on a channel is cancelled.

ghost use Rattle.std.specs.Prelude.{◌≡◌, ◌∷◌, [], IsTrue, option_map};
ghost use Rattle.std.specs.List.{find, list_any};
ghost use Rattle.vx_base.specs.declared.effects.Effect.TheVariants.{Drop, Mark};
ghost use Rattle.vx_record.specs.Cancel.{cancel, cancel_channel, dassgn, drop_attentions};
ghost use Rattle.vx_record.specs.Finish.{this_request};
ghost use Rattle.vx_procs.specs.Attention.{without_attention};
ghost use Rattle.vx_record.specs.Parts.{tells};
ghost use Rattle.vx_record.specs.Sound.{AreOrdered, BoxStands, attention_id, ground};
ghost use Rattle.vx_procs.specs.Kernel.{Acts, Does, Fits};
ghost use Rattle.vx_procs.specs.Ready.{IsReady};
ghost use Rattle.vx_procs.specs.Requests.{to_abort};
ghost use Rattle.vx_io.specs.Asking.{AreOpen};
ghost use Rattle.vx_io.specs.Cancelling.{AreCancellable, IsDeviceThere, IsToCancel, cancel_found, cancel_requests, end_by, withdraw_by, withdraw_found};
ghost use Rattle.vx_io.specs.Finishing.{AreRequests};

use crate::asking::device_channel;
use crate::channels::free_channel;
use crate::finish::finish_id;
use vx_base::{BoxNo, Cond, Device, Effect, Id, Pid, Reply, Routine};
use vx_procs::Core;

// MARK: a request in service is to be aborted.
fn mark<R: Routine>(core: &mut Core<R>, id: Id)
    requires there { IsTrue (list_any (this_request id) core.old.state.requests) }
    requires room { Fits core.old (Mark id ∷ []) }
    ensures { Acts (tells (Mark id) (to_abort id core.old.state)) core.old core.new }
{
    let _marked = core.mark_request(id);
    core.tell(Effect::Mark(id));
}

// MCUT: a write that a mailbox stores is withdrawn.
#[tactic(auto, using(crate::proofs::Parted::told_none))]
fn withdraw_from<R: Routine>(core: &mut Core<R>, b: BoxNo, id: Id)
    requires stands { BoxStands (ground core.old.state) b }
    requires room { Fits core.old (withdraw_by core.old.state b id).effects }
    ensures { Acts (withdraw_by core.old.state b id) core.old core.new }
{
    if core.has_message(b, id) {
        let name = core.box_name(b);
        let _cut = core.take_message(b, id);
        core.tell(Effect::MCut { name, w: id });
    }
}

// The device of a request.
fn device_of<R: Routine>(core: &Core<R>, id: Id) -> Option<Device>
    ensures { result ≡ option_map (λ r. r.req.device) (find (this_request id) core.now.state.requests) }
{
    match core.request(id) {
        Some(req) => Some(req.device),
        None => None,
    }
}

// What a mailbox stores of a request is withdrawn.
fn withdraw<R: Routine>(core: &mut Core<R>, id: Id)
    requires there { IsDeviceThere core.old.state (find (this_request id) core.old.state.requests) }
    requires room { Fits core.old (withdraw_found core.old.state (find (this_request id) core.old.state.requests)).effects }
    ensures { Acts (withdraw_found core.old.state (find (this_request id) core.old.state.requests)) core.old core.new }
{
    match device_of(core, id) {
        Some(Device::Mailbox(b)) => withdraw_from(core, b, id),
        Some(Device::Unit(_)) => (),
        None => (),
    }
}

// A request that waits is withdrawn if it is stored, and finishes with CANCEL.
fn end_request<R: Routine>(core: &mut Core<R>, id: Id)
    requires open { IsToCancel core.old.state id }
    requires room { Fits core.old (end_by core.old.state id).effects }
    ensures { Acts (end_by core.old.state id) core.old core.new }
{
    withdraw(core, id);
    let reply = Reply {
        cond: Cond::Cancel,
        count: 0,
        bytes: core.no_bytes(),
    };
    finish_id(core, id, reply, 0);
}

// A request in service is marked, and one that waits is withdrawn if it is stored, and finishes with CANCEL.
fn cancel_request<R: Routine>(core: &mut Core<R>, id: Id)
    requires open { IsToCancel core.old.state id }
    requires room { Fits core.old (cancel_found core.old.state (find (this_request id) core.old.state.requests)).effects }
    ensures { Acts (cancel_found core.old.state (find (this_request id) core.old.state.requests)) core.old core.new }
{
    if core.is_served(id) {
        mark(core, id);
    } else {
        end_request(core, id);
    }
}

// The requests of a process on a channel are cancelled, in order of acceptance.
fn cancel_requests<R: Routine>(core: &mut Core<R>, p: Pid, chan: u32)
    requires open { AreCancellable core.old.state }
    requires room { Fits core.old (cancel_requests p chan core.old.state).effects }
    ensures { Acts (cancel_requests p chan core.old.state) core.old core.new }
{
    'requests: while let Some(id) = core.to_cancel(p, chan) {
        cancel_request(core, id);
    }
}

// DROP: an attention entry ends, and its routine is never entered.
fn drop_attention<R: Routine>(core: &mut Core<R>, id: Id)
    requires room { Fits core.old (Drop id ∷ []) }
    ensures { Acts (tells (Drop id) (without_attention id core.old.state)) core.old core.new }
{
    core.drop_attention(id);
    core.tell(Effect::Drop(id));
}

// The attention entries of a process on a channel end, in id order.
fn drop_attentions<R: Routine>(core: &mut Core<R>, p: Pid, chan: u32)
    requires order { AreOrdered attention_id 0 core.old.state.next core.old.state.attention }
    requires room { Fits core.old (drop_attentions core.old.state p chan).effects }
    ensures { Acts (drop_attentions core.old.state p chan) core.old core.new }
{
    'entries: while let Some(id) = core.first_attention_on(p, chan) {
        drop_attention(core, id);
    }
}

/// What a process asked on a channel is cancelled: its requests in order of acceptance, and then its attention entries in id order. A
/// request in service is marked, and told so once; any other is withdrawn if a mailbox stores it, and finishes with CANCEL. Takes no
/// memory.
pub fn cancel_channel<R: Routine>(core: &mut Core<R>, p: Pid, chan: u32)
    requires requests { AreRequests core.old.state }
    requires entries { AreOrdered attention_id 0 core.old.state.next core.old.state.attention }
    requires room { Fits core.old (cancel_channel core.old.state p chan).effects }
    ensures { Acts (cancel_channel core.old.state p chan) core.old core.new }
{
    cancel_requests(core, p, chan);
    drop_attentions(core, p, chan);
}

/// $CANCEL: what the caller asked on a channel is cancelled: IVCHAN if the number is none of a channel, NOPRIV if the channel is
/// free or of a mode further in than the caller's.
pub fn cancel<R: Routine>(core: &mut Core<R>, p: Pid, chan: u32) -> Cond
    requires ready { IsReady core.old p }
    requires open { AreOpen core.old.state p }
    requires room { Fits core.old (cancel core.old.state p chan).effects }
    ensures { Does (cancel core.old.state p chan) result core.old core.new }
{
    match core.channel(p, chan) {
        Ok(_) => {
            cancel_channel(core, p, chan);
            Cond::Normal
        }
        Err(cond) => cond,
    }
}

/// $DASSGN: what the caller asked on a channel is cancelled, and then the channel is free, and its mailbox goes if it was the last:
/// IVCHAN and NOPRIV as $CANCEL.
pub fn dassgn<R: Routine>(core: &mut Core<R>, p: Pid, chan: u32) -> Cond
    requires ready { IsReady core.old p }
    requires open { AreOpen core.old.state p }
    requires room { Fits core.old (dassgn core.old.state p chan).effects }
    ensures { Does (dassgn core.old.state p chan) result core.old core.new }
{
    match device_channel(core, p, chan) {
        Ok(_) => {
            cancel_channel(core, p, chan);
            free_channel(core, p, chan);
            Cond::Normal
        }
        Err(cond) => cond,
    }
}
