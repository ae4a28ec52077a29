//! Which column is whose.

ghost use Rattle.std.specs.Prelude.{◌≡◌, ◌+◌, ◌<◌, ◌≤◌, ◌^◌};
ghost use Rattle.vx_draw.specs.Places as spec;

use vx_base::{Event, Pid};

/// Where the columns behind those of the processes begin: those of units, of mailboxes and of clusters; and where the last ends.
#[derive(Clone, Copy)]
pub struct Places {
    pub units: u32,
    pub boxes: u32,
    pub clusters: u32,
    pub end: u32,
}

fn capped(n: usize) -> u32
    ensures value { result ≡ spec.capped n }
    ensures small { result ≤ 1000 }
{
    if n < 1000 { n as u32 } else { 1000 }
}

/// The columns of so many processes, units and mailboxes, of at most 1,000 of each, and one for clusters if there are any.
pub fn columns_of(processes: usize, units: usize, boxes: usize, clusters: bool) -> Places
    ensures { result ≡ spec.columns_of processes units boxes clusters }
{
    let first_unit = 140 + 440 * capped(processes);
    let first_box = first_unit + 150 * capped(units);
    let behind = first_box + 120 * capped(boxes);
    Places {
        units: first_unit,
        boxes: first_box,
        clusters: behind,
        end: behind + if clusters { 240 } else { 80 },
    }
}

/// Where the column of a mailbox begins, by its place among them.
pub fn box_x(places: Places, i: u32) -> u64
    ensures value { result ≡ spec.box_x places i }
    ensures small { result < 2 ^ 42 }
{
    u64::from(places.boxes) + 120 * u64::from(i)
}

/// Where the column of a process begins.
pub fn process_x(p: Pid) -> u64
    ensures value { result ≡ spec.process_x p.0 }
    ensures small { result < 2 ^ 42 }
{
    (440 * u64::from(p.0)).saturating_sub(300)
}

/// Where lines to who acted end: behind the frames of a process.
pub fn anchor(places: Places, event: Event) -> u128
    ensures value { result ≡ spec.anchor places event }
    ensures small { result < 2 ^ 100 }
{
    match event {
        Event::Run(p) | Event::Ast(p) | Event::Rdn(p) => u128::from(process_x(p)) + 50,
        Event::Beg(u) | Event::Don(u) => u128::from(places.units) + 150 * u128::from(u.0) + 8,
        Event::Tick => 52,
    }
}

/// Where the n-th column of a process begins.
pub fn column_x(n: u64) -> u128
    ensures value { result ≡ spec.process_x n }
    ensures small { result < 2 ^ 100 }
{
    (440 * u128::from(n)).saturating_sub(300)
}
