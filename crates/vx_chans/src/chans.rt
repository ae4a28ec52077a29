//! Channels by their numbers.

ghost use Rattle.std.specs.Prelude.{◌≡◌, ◌≤◌, replicate, IsTrue, IsSome, IfOk, IfSome, None, length, option_map};
ghost use Rattle.vx_base.specs.Channels.{is_box, is_channel_number, is_channel_to, channel_at, least_free, is_reached, next_of_mode};
ghost use Rattle.std.specs.List.{list_any};
ghost use Rattle.vx_same.specs.Trimmed.{filled_to, laid_over};
ghost use Rattle.vx_chans.specs.Chans.{number_or_none, with_channel, without_channel, found};

use crate::row::Row;
use crate::snapshot::ChansSnapshot;
use std::alloc::Global;
use std::marker::Model;
use vx_base::{BoxNo, Device, Mode, NoMemory};

/// How many channels a process has.
const CHANNELS: usize = 64;

/// Why a channel is refused.
#[derive(Clone, Copy, Debug, PartialEq, Eq)]
pub enum ChanFail {
    /// No number of a channel.
    IvChan,
    /// Not assigned, or in a mode that is further in.
    NoPriv,
    /// All channels are assigned.
    NoIoChan,
}

/// The 64 channels of a process. Contracts see at place n - 1 what channel n is assigned to. Behind the last one that was ever assigned
/// all are free.
#[derive(Drop)]
pub struct Chans {
    rows: Vec<Option<Row>>,
    used: usize,
}

impl Model for Chans {
    ghost use Rattle.std.specs.Prelude.{◌≡◌, ◌-◌, ◌≤◌, List, None, Option, drop, replicate, vec_len};
    ghost use Rattle.vx_base.specs.Pieces.{Channel};

    ghost Value = { List (Option Channel) };

    ghost view = { λ c. c.rows.items };

    ghost invariant = { λ c. (vec_len c.rows ≡ 64) × (c.used ≤ 64) × (drop c.used c.rows.items ≡ replicate (64 - c.used) None) };
}

// Frees so many of the first rows, and puts others over the first.
fn lay_over(rows: &mut [Option<Row>], used: usize, first: &[Option<Row>])
    requires used { used ≤ length rows.old }
    requires first { length first.now ≤ length rows.old }
    ensures rows { rows.new ≡ laid_over used None first.now rows.old }
    ensures len { length rows.new ≡ length rows.old }
{
    rows[..used].fill(None);
    rows[..first.len()].copy_from_slice(first);
}

impl Chans {
    /// No channel assigned.
    pub fn new(alloc: Global) -> Result<Chans, NoMemory>
        ensures { IfOk result (λ chans. chans ≡ replicate 64 None) }
    {
        Ok(Chans {
            rows: Vec::from_array(alloc, [None; CHANNELS])?,
            used: 0,
        })
    }

    /// Has the first channels assigned as rows say, and no other. Takes no memory.
    #[tactic(auto, using(vx_same::proofs::Trimmed::laid_filled, vx_same::proofs::Trimmed::alike_behind))]
    pub(crate) fn fill(&mut self, first: &[Option<Row>])
        requires { length first.now ≤ 64 }
        ensures { self.new ≡ filled_to 64 None first.now }
    {
        lay_over(&mut self.rows, self.used, first);
        self.used = first.len();
    }

    /// Its channels up to the last one that was ever assigned.
    #[tactic(auto, using(vx_same::proofs::Trimmed::front))]
    pub(crate) fn used(&self) -> &[Option<Row>]
        ensures rows { filled_to 64 None result.now ≡ self.now }
        ensures few { length result.now ≤ 64 }
    {
        &self.rows[..self.used]
    }

    /// What is assigned, in as little room as it takes.
    pub fn snapshot(&self, alloc: Global) -> Result<ChansSnapshot, NoMemory>
        ensures { IfOk result (λ s. s ≡ self.now) }
    {
        ChansSnapshot::new(alloc, self.used())
    }

    /// Assigns the least free channel to a device, in a mode, and answers its number, 1 to 64 ($ASSIGN). NoIoChan, and
    /// nothing changed, if none is free. Takes no memory.
    #[tactic(auto, using(crate::proofs::Used::assigned_behind))]
    pub fn assign(&mut self, device: Device, mode: Mode) -> Result<u32, ChanFail>
        ensures answer { result ≡ number_or_none (least_free self.old) }
        ensures number { IfOk result (λ n. IsTrue (is_channel_number n)) }
        ensures assigned { IfOk result (λ n. channel_at self.new n ≡ Some (record { device = device; mode = mode })) }
        ensures after { self.new ≡ with_channel self.old (least_free self.old) (record { device = device; mode = mode }) }
    {
        let Some(number) = least_free(&self.rows) else {
            return Err(ChanFail::NoIoChan);
        };
        self.rows[number as usize - 1] = Some(Row::new(device, mode));
        self.used = self.used.max(number as usize);
        Ok(number)
    }

    /// The device and the mode of a channel, for a process that runs in the current mode. IvChan if the number is not
    /// 1 to 64; NoPriv if the channel is free, or its mode is further in than the current one.
    pub fn find(&self, chan: u32, current: Mode) -> Result<(Device, Mode), ChanFail>
        ensures { result ≡ found self.now chan current }
    {
        if chan < 1 || chan > 64 {
            return Err(ChanFail::IvChan);
        }
        let row = self.rows[chan as usize - 1].ok_or(ChanFail::NoPriv)?;
        if row.mode().rank() < current.rank() {
            return Err(ChanFail::NoPriv);
        }
        Ok((row.device(), row.mode()))
    }

    /// How many channels there are, assigned or free: 64.
    pub fn len(&self) -> usize
        ensures { result ≡ length self.now }
    {
        self.rows.len()
    }

    /// The device of a channel, if it is assigned, whatever its mode.
    pub fn device(&self, chan: u32) -> Option<Device>
        requires { IsTrue (is_channel_number chan) }
        ensures { result ≡ option_map (λ ch. ch.device) (channel_at self.now chan) }
    {
        let row = self.rows[chan as usize - 1]?;
        Some(row.device())
    }

    /// Whether a channel is assigned to a mailbox.
    pub fn has_box(&self, b: BoxNo) -> bool
        ensures { result ≡ list_any (is_channel_to b) self.now }
    {
        self.rows.iter().any(|row| is_channel_to(b, row))
    }

    /// Frees a channel that is assigned ($DASSGN). Takes no memory.
    #[tactic(auto, using(crate::proofs::Used::freed_behind))]
    pub fn free(&mut self, chan: u32)
        requires number { IsTrue (is_channel_number chan) }
        requires assigned { IsSome (channel_at self.old chan) }
        ensures { self.new ≡ without_channel self.old chan }
    {
        self.rows[chan as usize - 1] = None;
    }

    /// The least channel above a number that is assigned in this mode or one further out.
    #[tactic(auto, using(crate::proofs::Used::next_used))]
    pub fn next_of_mode(&self, mode: Mode, after: u32) -> Option<u32>
        ensures next { result ≡ next_of_mode mode after self.now }
        ensures places { length self.now ≡ 64 }
    {
        next_of_mode(&self.rows[..self.used], mode, after)
    }
}

/// The least number above another of a channel that is assigned in a mode or one further out.
fn next_of_mode(rows: &[Option<Row>], mode: Mode, after: u32) -> Option<u32>
    requires { length rows.now ≤ 64 }
    ensures { result ≡ next_of_mode mode after rows.now }
{
    for (place, row) in rows.iter().enumerate() {
        let number = place as u32 + 1;
        if after < number && is_reached(mode, row) {
            return Some(number);
        }
    }
    None
}

/// The least number of a free channel.
fn least_free(rows: &[Option<Row>]) -> Option<u32>
    requires { length rows.now ≡ 64 }
    ensures number { result ≡ least_free rows.now }
    ensures within { IfSome result (λ n. IsTrue (is_channel_number n)) }
{
    for (place, row) in rows.iter().enumerate() {
        if row.is_none() {
            return Some(place as u32 + 1);
        }
    }
    None
}

/// Whether a channel is assigned in this mode or one further out.
fn is_reached(mode: Mode, row: &Option<Row>) -> bool
    ensures { result ≡ is_reached mode row.now }
{
    match row {
        Some(row) => mode.rank() <= row.mode().rank(),
        None => false,
    }
}

/// Whether a channel is assigned to a mailbox.
fn is_channel_to(b: BoxNo, row: &Option<Row>) -> bool
    ensures { result ≡ is_channel_to b row.now }
{
    match row {
        Some(row) => is_box(row.device(), b),
        None => false,
    }
}

/// Whether a device is a mailbox.
fn is_box(device: Device, b: BoxNo) -> bool
    ensures { result ≡ is_box b device }
{
    match device {
        Device::Unit(_) => false,
        Device::Mailbox(c) => b.0 == c.0,
    }
}
