//! Creation of a process.

ghost use Rattle.std.specs.Prelude.{◌≡◌, ◌<◌, length};
ghost use Rattle.vx_record.specs.State.{IsProcess, process_at};
ghost use Rattle.vx_record.specs.Control.{decl_at, held_by_both, next_pid};
ghost use Rattle.vx_procs.specs.Kernel.{with_state};
ghost use Rattle.vx_procs.specs.Ready.{HasNewcomer};
ghost use Rattle.vx_procs.specs.View.{process};
ghost use Rattle.vx_procs.specs.Words.{handed_on, with_created};

use crate::process::Proc;
use crate::procs::Core;
use crate::reads::decl_in;
use vx_base::{Pid, Privs, Routine, outer_of};
use vx_image::ProcDecl;

// The privileges that both have.
fn held_by_both(a: Privs, b: Privs) -> Privs
    ensures { result ≡ held_by_both a b }
{
    Privs {
        cmexec: a.cmexec & b.cmexec,
        cmkrnl: a.cmkrnl & b.cmkrnl,
        group: a.group & b.group,
        prmceb: a.prmceb & b.prmceb,
        prmmbx: a.prmmbx & b.prmmbx,
        world: a.world & b.world,
    }
}

// A declaration as a creator hands it on: with its group and member, no privilege that it lacks, and no inner mode.
fn handed_on<R: Routine>(creator: &Proc<R>, decl: &ProcDecl) -> ProcDecl
    ensures { result ≡ handed_on (process creator.now) decl.now }
{
    ProcDecl {
        group: creator.group,
        member: creator.member,
        privs: held_by_both(creator.privs, decl.privs),
        mode: outer_of(decl.mode, creator.mode()),
        ..*decl
    }
}

impl<R: Routine> Core<R> {
    // The declaration at a place, as its creator p hands it on.
    fn declaration_by(&self, p: Pid, place: u32) -> ProcDecl
        requires made { IsProcess self.now.state p }
        requires declared { place < length self.now.state.system.decls }
        ensures { result ≡ handed_on (process_at self.now.state p) (decl_at self.now.state place) }
    {
        handed_on(self.process_of(p), decl_in(self.system.get(), place))
    }

    /// Makes the process of the declaration at a place ($CREPRC), which its creator p limits, and gives its number. It uses up the
    /// spare process, and takes no memory.
    pub fn create(&mut self, p: Pid, place: u32) -> Pid
        requires made { IsProcess self.old.state p }
        requires declared { place < length self.old.state.system.decls }
        requires few { length self.old.state.procs < 1000 }
        requires newcomer { HasNewcomer self.old }
        ensures number { result ≡ next_pid self.old.state }
        ensures after { self.new ≡ with_state self.old (with_created self.old.state p place) }
    {
        let decl = self.declaration_by(p, place);
        let number = Pid(self.procs.len() as u32 + 1);
        let Some(spare) = self.spare.take() else {
            unreachable!()
        };
        let created = spare.into_proc(place, &decl);
        self.procs.put(created);
        number
    }
}
