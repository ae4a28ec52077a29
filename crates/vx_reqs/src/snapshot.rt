//! The requests in as little room as they take.

ghost use Rattle.std.specs.Prelude.{◌≡◌, ◌↔◌, IfOk, IsTrue, OnOk};
ghost use Rattle.vx_reqs.specs.Digest.{mix_requests};
ghost use Rattle.vx_reqs.specs.Places.{live};

use crate::outstanding::Outstanding;
use crate::places::Places;
use crate::reqs::Reqs;
use std::alloc::Global;
use std::marker::Model;
use vx_base::{Duplicate, NoMemory, Routine, Same};
use vx_same::mix;

/// The outstanding requests in order of acceptance, with no empty place and no room for more, and nothing noted of where those of a
/// unit or of a mailbox are.
#[derive(Drop)]
pub struct ReqsSnapshot<R: Routine> {
    requests: Vec<Outstanding<R>>,
}

impl<R: Routine> Model for ReqsSnapshot<R> {
    ghost use Rattle.std.specs.Prelude.{List};
    ghost use Rattle.vx_base.specs.Pieces.{Request};

    ghost Value = { List Request };

    ghost view = { λ s. s.requests.items };
}

// The requests that stand in places. Takes memory for so many.
fn put_away<R: Routine>(alloc: Global, places: &Places<R>) -> Result<Vec<Outstanding<R>>, NoMemory>
    ensures { IfOk result (λ requests. requests.items ≡ live places.now.items) }
{
    let mut requests = Vec::with_capacity(alloc, places.count())?;
    let mut at = 0;
    while at < places.len() {
        if let Some(request) = places.held(at) {
            requests.push(request.duplicate()?)?;
        }
        at += 1;
    }
    Ok(requests)
}

// Whether these are the requests that stand in places.
fn same_requests<R: Routine>(requests: &[Outstanding<R>], places: &Places<R>) -> bool
    ensures { IsTrue result ↔ (requests.now ≡ live places.now.items) }
{
    let mut left = requests;
    let mut at = 0;
    while at < places.len() {
        if let Some(request) = places.held(at) {
            let Some((first, others)) = left.split_first() else {
                return false;
            };
            if !first.same(request) {
                return false;
            }
            left = others;
        }
        at += 1;
    }
    left.is_empty()
}

// A digest with the requests that stand in places.
fn mix_requests<R: Routine>(digest: u64, places: &Places<R>) -> u64
    ensures { result ≡ mix_requests digest (live places.now.items) }
{
    let mut mixed = digest;
    let mut at = 0;
    while at < places.len() {
        if let Some(request) = places.held(at) {
            let req = request.req();
            mixed = mix(mix(mixed, req.id.0 as u64), req.p.0 as u64);
        }
        at += 1;
    }
    mixed
}

impl<R: Routine> Reqs<R> {
    /// A digest with the requests. Takes no memory.
    pub fn mix(&self, digest: u64) -> u64
        ensures { result ≡ mix_requests digest self.now.items }
    {
        mix_requests(digest, self.places())
    }
}

impl<R: Routine> ReqsSnapshot<R> {
    /// The requests that stand in places.
    pub(crate) fn new(alloc: Global, places: &Places<R>) -> Result<ReqsSnapshot<R>, NoMemory>
        ensures { IfOk result (λ s. s ≡ live places.now.items) }
    {
        Ok(ReqsSnapshot {
            requests: put_away(alloc, places)?,
        })
    }

    /// The same requests in place of others, each with a routine made from its tag. If memory runs out, the others are of no
    /// more use.
    pub fn restore(&self, reqs: &mut Reqs<R>) -> Result<(), NoMemory>
        ensures { OnOk result (reqs.new.items ≡ self.now) }
    {
        reqs.clear();
        for request in self.requests.as_slice() {
            reqs.push(request.duplicate()?)?;
        }
        Ok(())
    }

    /// Whether these are the requests that are out, in the same order. Takes no memory.
    pub fn same(&self, reqs: &Reqs<R>) -> bool
        ensures { IsTrue result ↔ (self.now ≡ reqs.now.items) }
    {
        same_requests(self.requests.as_slice(), reqs.places())
    }
}
