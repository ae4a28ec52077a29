//! What is proved of the agreement: after the records of every run the state is what the records leave.

ghost use Rattle.std.specs.Prelude.{◌≡◌, ℕ, ◌+◌, ◌≤◌, List, [], map, true, false, Some, is_some, IsTrue, option_map};
ghost use Rattle.vx_base.specs.Channels.{channel_at};
ghost use Rattle.vx_base.specs.Lists.{is_some_and};
ghost use Rattle.vx_record.specs.Types.{BoxNo as BoxNoOf, Cell as CellOf, Id as IdOf, Mode as ModeOf, Pid as PidOf, ProcDecl as DeclOf, Rec as RecOf, System as SystemOf};
ghost use Rattle.std.specs.List.{list_any, AllByRecursion, find};
ghost use Rattle.vx_base.specs.Clusters.{is_association, stands};
ghost use Rattle.vx_base.specs.Pieces.{is_enabled_in};
ghost use Rattle.vx_base.specs.Quotas.{is_within};
ghost use Rattle.vx_image.specs.Storage.{status_at};
ghost use Rattle.vx_laws.specs.Agreement.{StateAgrees};
ghost use Rattle.vx_laws.specs.Agrees.{AreEntries, as_waiting, entered_frames, has_kind, is_attending, is_handler_of, is_timed, cluster_of, cluster_stands, AsCalled, IsOwned, as_stored, box_stands, device_title, OfChannelCall, waited};
ghost use Rattle.vx_laws.specs.Boxes.{stored};
ghost use Rattle.vx_record.specs.Channels.{is_box_of, is_unit_of};
ghost use Rattle.vx_laws.specs.Charges.{charge_by};
ghost use Rattle.vx_laws.specs.Frames.{awaited, enabled_by, entered, waiting};
ghost use Rattle.vx_laws.specs.Items.{past_of};
ghost use Rattle.vx_laws.specs.Lives.{is_outstanding, life, opens};
ghost use Rattle.vx_laws.specs.QuotaSum.{decl_by};
ghost use Rattle.vx_laws.specs.RundownLaw.{is_gone};
ghost use Rattle.vx_laws.specs.Runs.{AfterEveryRun};
ghost use Rattle.vx_laws.specs.Values.{cluster_by, flags_by, status_by};
ghost use Rattle.vx_record.specs.Charges.{charge};
ghost use Rattle.vx_record.specs.Control.{is_deleted};
ghost use Rattle.vx_record.specs.Finish.{this_request};
ghost use Rattle.vx_record.specs.Flags.{flags_of};
ghost use Rattle.vx_record.specs.Mailboxes.{this_attention, mailbox_at, waits_at};
ghost use Rattle.vx_record.specs.Rundown.{this_handler};
ghost use Rattle.vx_record.specs.Runs.{IsRun, after};
ghost use Rattle.vx_record.specs.State.{process_at, IsProcess, decl_of, box_at};
ghost use Rattle.vx_record.specs.Timers.{this_timer};

/// After the records of every run the next id is one more than the ids that they opened. Delivery is enabled in a mode if they
/// leave it so. A process's queued ASTs are those that they leave queued, in that order, with their modes. Its frames above the
/// main one are the routines that they leave entered, in that order.
#[tactic(auto, using(crate::proofs::Turns::every_next, crate::proofs::Turns::every_enable, crate::proofs::Turns::every_queue, crate::proofs::Leaves::every_frame))]
pub fn every_moment_agrees()
    ensures next { AfterEveryRun (λ s past. s.next ≡ opens past + 1) }
    ensures enables { AfterEveryRun (λ s past. (p : PidOf) (m : ModeOf) → 1 ≤ p.0 → is_enabled_in (process_at s p).enables m ≡ enabled_by past p m) }
    ensures asts { AfterEveryRun (λ s past. (p : PidOf) → 1 ≤ p.0 → map as_waiting (process_at s p).asts ≡ waiting past p) }
    ensures frames { AfterEveryRun (λ s past. (p : PidOf) → 1 ≤ p.0 → AreEntries (entered_frames (process_at s p).frames) (entered past p)) }
{}

/// After the records of every run the requests, the timers and wakes, the attention entries, and the exit handlers of a process
/// that stand in the state are exactly those that the records leave open.
#[tactic(auto, using(crate::proofs::Opens::every_request, crate::proofs::Opens::every_timer, crate::proofs::Opens::every_attention, crate::proofs::Opens::every_handler))]
pub fn every_open_id_stands()
    ensures requests { AfterEveryRun (λ s past. (id : IdOf) → list_any (this_request id) s.requests ≡ is_some_and is_outstanding (life past id)) }
    ensures timers { AfterEveryRun (λ s past. (id : IdOf) → list_any (this_timer id) s.timers ≡ is_some_and (has_kind is_timed) (life past id)) }
    ensures attention { AfterEveryRun (λ s past. (id : IdOf) → list_any (this_attention id) s.attention ≡ is_some_and (has_kind is_attending) (life past id)) }
    ensures handlers { AfterEveryRun (λ s past. (p : PidOf) (id : IdOf) → 1 ≤ p.0 →
        list_any (this_handler id) (process_at s p).handlers ≡ is_some_and (is_handler_of p) (life past id)) }
{}

/// After the records of every run each outstanding request is as the call that opened it says: its process, its flag and status
/// block, its channel, function, buffer and length.
#[tactic(auto, using(crate::proofs::Asked::every_request_called))]
pub fn every_request_agrees()
    ensures { AfterEveryRun (λ s past. AllByRecursion (λ r. AsCalled past r.req) s.requests) }
{}

/// After the records of every run each process is charged, in each of its five accounts, what the records leave open.
#[tactic(auto, using(crate::proofs::Sums::every_charge))]
pub fn every_charge_agrees()
    ensures { AfterEveryRun (λ s past. (p : PidOf) → 1 ≤ p.0 → charge s p ≡ charge_by past p) }
{}

/// After the records of every run the records tell each process's declaration, and no charge exceeds its limit.
#[tactic(auto, using(crate::proofs::Quotas::every_decl, crate::proofs::Quotas::every_bound))]
pub fn every_charge_is_within_its_limit()
    ensures declarations { (system : SystemOf) (recs : List RecOf) (p : PidOf) → IsRun system recs → IsProcess (after system recs) p →
        decl_by system (past_of recs) p ≡ Some (decl_of (after system recs) p) }
    ensures limits { (system : SystemOf) (recs : List RecOf) (p : PidOf) (d : DeclOf) → IsRun system recs →
        decl_by system (past_of recs) p ≡ Some d → is_within (charge_by (past_of recs) p) d.limits ≡ true }
{}

/// After the records of every run the 32 flags of each cluster, local or common, are as the last records on them say. So are each
/// process's status blocks, what it has associated, and which common clusters stand.
#[tactic(auto, using(crate::proofs::Holds::every_flag, crate::proofs::Holds::every_status, crate::proofs::Holds::every_association, crate::proofs::Holds::every_cluster))]
pub fn every_value_agrees()
    ensures flags { AfterEveryRun (λ s past. (c : CellOf) → IsOwned c → flags_of s c ≡ flags_by past c) }
    ensures statuses { AfterEveryRun (λ s past. (p : PidOf) (i : ℕ) → 1 ≤ p.0 → 1 ≤ i → i ≤ 32 →
        status_at (process_at s p).store i ≡ status_by past p i) }
    ensures associations { AfterEveryRun (λ s past. (p : PidOf) (k : ℕ) →
        cluster_of (find (is_association p k) s.common.associations) ≡ cluster_by past p k) }
    ensures clusters { AfterEveryRun (λ s past. (group : ℕ) (name : List ℕ) → stands s.common group name ≡ cluster_stands past group name) }
{}

/// After the records of every run each frame of each process waits for what the records tell, the top one first.
#[tactic(auto, using(crate::proofs::Resumes::every_wait))]
pub fn every_wait_agrees()
    ensures { AfterEveryRun (λ s past. (p : PidOf) → IsProcess s p → map (λ f. f.wait) (process_at s p).frames ≡ map waited (awaited past p)) }
{}

/// After the records of every run a mailbox stands exactly if the last MBX of its name says so. Each that stands has the
/// messages that they leave stored, in that order, of the processes that wrote them. None has both a message and a read that waits.
#[tactic(auto, using(crate::proofs::Messages::every_box_stands))]
pub fn every_box_agrees()
    ensures stands { (system : SystemOf) (recs : List RecOf) (name : List ℕ) → IsRun system recs →
        list_any (is_box_of name) (after system recs).boxes ≡ box_stands (past_of recs) name }
    ensures messages { (system : SystemOf) (recs : List RecOf) (b : BoxNoOf) → IsRun system recs → IsTrue (is_some (box_at (after system recs) b)) →
        map as_stored (mailbox_at (after system recs) b).messages ≡ stored (past_of recs) (mailbox_at (after system recs) b).name }
    ensures writers { (system : SystemOf) (recs : List RecOf) (b : BoxNoOf) → IsRun system recs → IsTrue (is_some (box_at (after system recs) b)) →
        AllByRecursion (λ m. option_map (λ l. l.p) (life (past_of recs) m.id) ≡ Some m.writer) (mailbox_at (after system recs) b).messages }
    ensures reads { (system : SystemOf) (recs : List RecOf) (b : BoxNoOf) → IsRun system recs →
        list_any (waits_at b) (after system recs).requests ≡ true → (mailbox_at (after system recs) b).messages ≡ [] }
{}

/// After the records of every run each channel of a process is on the device that the latest $ASSIGN or $CREMBX which gave its
/// number names, and each outstanding request is on the device that its channel was on when it was opened.
#[tactic(auto, using(crate::proofs::Messages::every_request_device))]
pub fn every_device_agrees()
    ensures channels { (system : SystemOf) (recs : List RecOf) (p : PidOf) (n : ℕ) → IsRun system recs → 1 ≤ p.0 → 1 ≤ n →
        OfChannelCall (after system recs) (past_of recs) p n (channel_at (process_at (after system recs) p).channels n) }
    ensures requests { (system : SystemOf) (recs : List RecOf) → IsRun system recs →
        AllByRecursion (λ r. option_map (λ l. l.device) (life (past_of recs) r.req.id) ≡ Some (Some (device_title (after system recs) r.req.device))) (after system recs).requests }
{}

/// After the records of every run the name of a mailbox is no unit's and no other mailbox's.
pub fn every_box_has_its_own_name()
    ensures units { (system : SystemOf) (recs : List RecOf) (b : BoxNoOf) → IsRun system recs → IsTrue (is_some (box_at (after system recs) b)) →
        list_any (is_unit_of (mailbox_at (after system recs) b).name) (after system recs).system.units ≡ false }
    ensures mailboxes { (system : SystemOf) (recs : List RecOf) (b c : BoxNoOf) → IsRun system recs → IsTrue (is_some (box_at (after system recs) b)) →
        IsTrue (is_some (box_at (after system recs) c)) → (mailbox_at (after system recs) c).name ≡ (mailbox_at (after system recs) b).name → c ≡ b }
{}

/// After the records of every run a process that is there is deleted exactly if its GONE stands in them.
#[tactic(auto, using(crate::proofs::Finished::every_gone))]
pub fn every_process_agrees()
    ensures { AfterEveryRun (λ s past. (p : PidOf) → IsProcess s p → is_deleted (process_at s p) ≡ is_gone past p) }
{}

/// After the records of every run the state is what they leave, in all its parts: what is open, each process, flags and status
/// blocks and common clusters, and each mailbox.
#[tactic(auto, using(crate::proofs::StateAgrees::every_state_agrees))]
pub fn every_state_agrees()
    ensures { AfterEveryRun StateAgrees }
{}
