//! Mailboxes: found, read, made, and their messages put and taken.

ghost use Rattle.std.specs.Prelude.{◌≡◌, ◌+◌, ◌<◌, ◌++◌, ◌∷◌, [], None, Some, false, true, not, ◌==◌, nat_le, IfSome, is_none, length, option_map, position};
ghost use Rattle.std.specs.List.{find, list_any};
ghost use Rattle.vx_base.specs.Lists.{first, less};
ghost use Rattle.vx_base.specs.Queues.{stored_bytes};
ghost use Rattle.vx_mailbox.specs.Boxes.{IsShort};
ghost use Rattle.vx_record.specs.Channels.{box_named, has_channel_to, is_assigned};
ghost use Rattle.vx_record.specs.Mailboxes.{mailbox_at, this_message, waits_at, with_messages};
ghost use Rattle.vx_record.specs.Sound.{BoxStands, ground};
ghost use Rattle.vx_record.specs.State.{box_at, with_box};
ghost use Rattle.vx_procs.specs.Kernel.{with_state};
ghost use Rattle.vx_procs.specs.Ready.{HasMessageRooms};
ghost use Rattle.vx_procs.specs.View.{process};

use crate::process::Proc;
use crate::procs::Core;
use vx_base::{BoxNo, Id, Msg, Name, Routine};

impl<R: Routine> Proc<R> {
    // Whether it has a channel to a mailbox.
    fn has_channel_to(&self, b: BoxNo) -> bool
        ensures { result ≡ has_channel_to b (process self.now) }
    {
        self.chans.has_box(b)
    }
}

// Whether one of these processes has a channel to a mailbox.
fn any_assigned<R: Routine>(procs: &[Proc<R>], b: BoxNo) -> bool
    ensures { result ≡ list_any (λ pr. has_channel_to b (process pr)) procs.now }
{
    procs.iter().any(|proc| proc.has_channel_to(b))
}

impl<R: Routine> Core<R> {
    /// The mailbox of a name. None exactly where there is none.
    pub fn box_named(&self, name: &[u8]) -> Option<BoxNo>
        ensures found { option_map (λ b. b.0) result ≡ box_named self.now.state name.now }
        ensures stands { IfSome result (BoxStands (ground self.now.state)) }
    {
        self.boxes.named(name)
    }

    /// The least number, 0 to 63, that no mailbox has. None exactly where all are taken.
    pub fn free_box(&self) -> Option<BoxNo>
        ensures found { option_map (λ b. b.0) result ≡ position is_none self.now.state.boxes }
        ensures free { IfSome result (λ b. (b.0 < 64) × (box_at self.now.state b ≡ None)) }
    {
        self.boxes.free()
    }

    /// Its name.
    pub fn box_name(&self, b: BoxNo) -> Name
        requires { BoxStands (ground self.now.state) b }
        ensures { result ≡ (mailbox_at self.now.state b).name }
    {
        self.boxes.name(b)
    }

    /// The bytes of the longest message that it takes.
    pub fn maxmsg(&self, b: BoxNo) -> u32
        requires { BoxStands (ground self.now.state) b }
        ensures { result ≡ (mailbox_at self.now.state b).maxmsg }
    {
        self.boxes.maxmsg(b)
    }

    /// The bytes that it stores at most.
    pub fn bufquo(&self, b: BoxNo) -> u32
        requires { BoxStands (ground self.now.state) b }
        ensures { result ≡ (mailbox_at self.now.state b).bufquo }
    {
        self.boxes.bufquo(b)
    }

    /// Whether it stays if no channel is assigned to it.
    pub fn is_permanent(&self, b: BoxNo) -> bool
        requires { BoxStands (ground self.now.state) b }
        ensures { result ≡ (mailbox_at self.now.state b).permanent }
    {
        self.boxes.is_permanent(b)
    }

    /// Whether it is marked for deletion ($DELMBX).
    pub fn is_marked(&self, b: BoxNo) -> bool
        requires { BoxStands (ground self.now.state) b }
        ensures { result ≡ (mailbox_at self.now.state b).marked }
    {
        self.boxes.is_marked(b)
    }

    /// Whether it stores the message of a write with an id.
    pub fn has_message(&self, b: BoxNo, id: Id) -> bool
        requires { BoxStands (ground self.now.state) b }
        ensures { result ≡ list_any (this_message id) (mailbox_at self.now.state b).messages }
    {
        self.boxes.has(b, id)
    }

    /// The id of the write of its oldest message. None exactly where it stores none.
    pub fn oldest(&self, b: BoxNo) -> Option<Id>
        requires { BoxStands (ground self.now.state) b }
        ensures { result ≡ option_map (λ m. m.id) (first (mailbox_at self.now.state b).messages) }
    {
        self.boxes.oldest(b)
    }

    /// Whether it stores messages.
    pub fn has_messages(&self, b: BoxNo) -> bool
        requires { BoxStands (ground self.now.state) b }
        ensures { result ≡ not (length (mailbox_at self.now.state b).messages == 0) }
    {
        self.boxes.has_messages(b)
    }

    /// Whether so many bytes more are within what it stores.
    pub fn box_fits(&self, b: BoxNo, len: u32) -> bool
        requires { BoxStands (ground self.now.state) b }
        ensures { result ≡ nat_le (stored_bytes (mailbox_at self.now.state b).messages + len) (mailbox_at self.now.state b).bufquo }
    {
        self.boxes.fits(b, len)
    }

    /// Whether a process has a channel to a mailbox. Goes over the channels of all processes.
    pub fn is_assigned(&self, b: BoxNo) -> bool
        ensures { result ≡ is_assigned self.now.state b }
    {
        any_assigned(self.procs.as_slice(), b)
    }

    /// The first read that waits at a mailbox. None exactly where none waits.
    pub fn first_read(&self, b: BoxNo) -> Option<Id>
        ensures { result ≡ option_map (λ r. r.req.id) (find (waits_at b) self.now.state.requests) }
    {
        self.requests.first_read(b)
    }

    /// Makes a mailbox under a number that none has ($CREMBX). Takes no memory.
    pub fn make_box(&mut self, b: BoxNo, name: Name, permanent: bool, maxmsg: u32, bufquo: u32)
        requires within { b.0 < 64 }
        requires free { box_at self.old.state b ≡ None }
        requires messages { HasMessageRooms self.old }
        ensures { self.new ≡ with_state self.old (with_box self.old.state b (Some (record { name = name; permanent = permanent; marked = false; maxmsg = maxmsg; bufquo = bufquo; messages = [] }))) }
    {
        self.boxes.make(b, name, permanent, maxmsg, bufquo)
    }

    /// A mailbox goes, with its messages.
    pub fn remove_box(&mut self, b: BoxNo)
        requires { BoxStands (ground self.old.state) b }
        ensures { self.new ≡ with_state self.old (with_box self.old.state b None) }
    {
        self.boxes.remove(b)
    }

    /// Marks a mailbox for deletion ($DELMBX).
    pub fn mark_box(&mut self, b: BoxNo)
        requires { BoxStands (ground self.old.state) b }
        ensures { self.new ≡ with_state self.old (with_box self.old.state b (Some (record (mailbox_at self.old.state b) { marked = true }))) }
    {
        self.boxes.mark(b)
    }

    /// Stores a message of at most 2,048 bytes as the newest of a mailbox. Takes no memory.
    pub fn put_message(&mut self, b: BoxNo, msg: Msg)
        requires stands { BoxStands (ground self.old.state) b }
        requires room { HasMessageRooms self.old }
        requires size { IsShort msg }
        ensures { self.new ≡ with_state self.old (with_messages self.old.state b ((mailbox_at self.old.state b).messages ++ msg ∷ [])) }
    {
        self.boxes.put(b, msg)
    }

    /// Takes the message of a write with an id out of a mailbox. None exactly where it stores none of that id.
    pub fn take_message(&mut self, b: BoxNo, id: Id) -> Option<Msg>
        requires { BoxStands (ground self.old.state) b }
        ensures found { result ≡ find (this_message id) (mailbox_at self.old.state b).messages }
        ensures after { self.new ≡ with_state self.old (with_messages self.old.state b (less (this_message id) (mailbox_at self.old.state b).messages)) }
        ensures size { IfSome result IsShort }
    {
        self.boxes.take(b, id)
    }
}
