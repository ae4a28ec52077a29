//! The trails of what has an id: a line from each place where it was told to the next.

ghost use Rattle.std.specs.Prelude.{◌≡◌, ◌++◌, [], OnOk};
ghost use Rattle.vx_draw.specs.Trails as spec;

use crate::shapes::{Point, print_stroke};
use std::alloc::Global;
use std::marker::Model;
use vx_base::{Bytes, Id, Mode, NoMemory};

/// Where an id was last told, the mode of its routine, and whether that is a forced exit.
#[derive(Clone, Copy)]
pub struct Trail {
    pub x: u128,
    pub y: u128,
    pub mode: Mode,
    pub forces: bool,
}

/// What is told of an id.
#[derive(Clone, Copy)]
pub enum Tale {
    /// Nothing.
    Nothing,
    /// It is opened, with the mode of its routine, and whether that is a forced exit.
    Opened(Id, Mode, bool),
    /// It is told again.
    Again(Id),
}

/// The trails of all ids so far, which begin at 1 and rise by one. Contracts see their list.
#[derive(Drop)]
pub struct Trails {
    items: Vec<Trail>,
}

impl Model for Trails {
    ghost use Rattle.std.specs.Prelude.{List};
    ghost use Rattle.vx_draw.specs.declared.trails.Trail.{Trail};

    ghost Value = { List Trail };

    ghost view = { λ t. t.items.items };
}

// Appends the line that continues a trail, unless it has come no further down.
fn print_line_on(class: &[u8], at: Point, trail: Trail, out: &mut Bytes) -> Result<(), NoMemory>
    ensures { OnOk result (out.new ≡ out.old ++ spec.line_on class.now at.x at.y trail) }
{
    if trail.y < at.y {
        let from = Point {
            x: trail.x,
            y: trail.y,
        };
        print_stroke(class, from, at, out)
    } else {
        Ok(())
    }
}

impl Trails {
    /// No trails. Takes no memory.
    pub fn new(alloc: Global) -> Trails
        ensures { result ≡ [] }
    {
        Trails {
            items: Vec::new(alloc),
        }
    }

    /// The trail of an id; one in user mode if it was not opened.
    pub fn at(&self, id: Id) -> Trail
        ensures { result ≡ spec.trail_at self.now id }
    {
        match self.items.get(id.0.saturating_sub(1) as usize) {
            Some(trail) => *trail,
            None => Trail {
                x: 0,
                y: 0,
                mode: Mode::User,
                forces: false,
            },
        }
    }

    // Begins the trail of an id, if it is the next.
    fn open(&mut self, at: Point, id: Id, mode: Mode, forces: bool) -> Result<(), NoMemory>
        ensures { OnOk result (self.new ≡ spec.opened at.x at.y id mode forces self.old) }
    {
        if id.0.saturating_sub(1) as usize == self.items.len() {
            self.items.push(Trail {
                x: at.x,
                y: at.y,
                mode,
                forces,
            })?;
        }
        Ok(())
    }

    // Continues the trail of an id, if it has one.
    fn follow(&mut self, class: &[u8], at: Point, id: Id, out: &mut Bytes) -> Result<(), NoMemory>
        ensures text { OnOk result (out.new ≡ out.old ++ spec.followed_text class.now at.x at.y id self.old) }
        ensures trails { OnOk result (self.new ≡ spec.followed at.x at.y id self.old) }
    {
        let i = id.0.saturating_sub(1) as usize;
        if i < self.items.len() {
            let trail = self.items[i];
            self.items[i] = Trail {
                x: at.x,
                y: at.y,
                ..trail
            };
            print_line_on(class, at, trail, out)
        } else {
            Ok(())
        }
    }

    /// Appends the line to the point where something is told, of a class, and goes on from there.
    pub fn tell(
        &mut self,
        class: &[u8],
        at: Point,
        tale: Tale,
        out: &mut Bytes,
    ) -> Result<(), NoMemory>
        ensures text { OnOk result (out.new ≡ out.old ++ spec.tale_text class.now at.x at.y tale self.old) }
        ensures trails { OnOk result (self.new ≡ spec.told at.x at.y tale self.old) }
    {
        match tale {
            Tale::Nothing => Ok(()),
            Tale::Opened(id, mode, forces) => self.open(at, id, mode, forces),
            Tale::Again(id) => self.follow(class, at, id, out),
        }
    }
}
