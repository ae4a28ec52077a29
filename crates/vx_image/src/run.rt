//! Running local statements.

ghost use Rattle.std.specs.Prelude.{◌≡◌, ◌≤◌, IsTrue, length, Some};
ghost use Rattle.std.specs.List.{list_all};
ghost use Rattle.vx_image.specs.Local.{stop_at, run_local, advanced, is_storable};
ghost use Rattle.vx_image.specs.Stmts.{meant};
ghost use Rattle.vx_image.specs.WellFormed.{IsImage};

use crate::image::Image;
use crate::local::local;
use crate::stmt::StmtRef;
use crate::stop::Stop;
use crate::store::Store;
use vx_base::Pid;

/// The most local statements of one run.
pub(crate) const MOST_LOCAL: u32 = 1000;

// What a statement that is not local stops at.
fn stop_at(store: &Store, prm: u32, p: Pid, stmt: &StmtRef<'_>) -> Stop
    ensures { result ≡ stop_at (record { prm = prm; p = p }) store.now (Some (meant stmt.now)) }
{
    match stmt {
        StmtRef::Service(call) => Stop::Call(call.computed(store, prm, p)),
        _ => Stop::Return,
    }
}

// Runs at most so many local statements.
pub(crate) fn run_local(
    image: &Image,
    store: &mut Store,
    prm: u32,
    p: Pid,
    pc: u32,
    most: u32,
) -> (u32, Stop)
    requires small { length image.now.stmts ≤ 10000 }
    requires storable { IsTrue (list_all is_storable image.now.stmts) }
    ensures { record { store = store.new; place = result.0; stop = result.1 } ≡ run_local most image.now (record { prm = prm; p = p }) store.old pc }
{
    let mut place = pc;
    for _ in 0..most {
        let Some(stmt) = image.stmts.get(place as usize) else {
            return (place, Stop::End);
        };
        match local(image, store, prm, p, place, &stmt) {
            Some(next) => place = next,
            None => return (place, stop_at(store, prm, p, &stmt)),
        }
    }
    (place, Stop::Local)
}

/// Runs the local statements of an image from a place on, at most 1,000, and gives the new place and why it stopped. `prm`
/// is the parameter of the top frame, `p` the process. Takes no memory, and refuses nothing.
#[tactic(auto, using(crate::proofs::Steps::image_storable))]
pub fn advance(image: &Image, store: &mut Store, pc: u32, prm: u32, p: Pid) -> (u32, Stop)
    requires { IsImage image.now }
    ensures { record { store = store.new; place = result.0; stop = result.1 } ≡ advanced image.now (record { prm = prm; p = p }) store.old pc }
{
    run_local(image, store, prm, p, pc, MOST_LOCAL)
}
