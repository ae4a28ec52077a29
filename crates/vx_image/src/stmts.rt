//! Statements in a small form.

ghost use Rattle.std.specs.Prelude.{◌≡◌, ◌↔◌, ◌<◌, ◌≤◌, ◌∷◌, ◌++◌, [], length, map, option_map, slice_get, slice_index_or, drop, IfOk, OnOk, OnErr, IsTrue};
ghost use Rattle.std.specs.List.{AllByRecursion};
ghost use Rattle.vx_base.specs.Services.{number, place};
ghost use Rattle.vx_base.specs.declared.call.Arg.TheVariants as arg;
ghost use Rattle.vx_image.specs.Small.{own, stmt_by, operand_of, args_in};
ghost use Rattle.vx_image.specs.Stmts.{meant};
ghost use Rattle.vx_image.specs.declared.stmt.Stmt.TheVariants as stmt;
ghost use Rattle.vx_image.specs.Terms.{OfArg, OfText, arg_in, text_in};

use crate::call_ref::CallRef;
use crate::stmt::{Field, Rel, Stmt, StmtRef, same_stmt};
use crate::terms::Terms;
use crate::texts::short;
use std::alloc::Global;
use std::marker::Model;
use vx_base::{Arg, Args, Call, Duplicate, NoMemory, Operand, Same, Service, Target};
use vx_same::same_items;

/// A statement without its terms.
#[derive(Clone, Copy, PartialEq)]
pub(crate) enum Kind {
    Let,
    Add,
    Sub,
    Goto,
    If(Rel),
    Put(u8),
    Byte(u8),
    Iosb(u8, Field),
    Return,
    Service(Service),
}

/// A statement in 8 bytes: its kind, where its terms begin, and how many it has.
#[derive(Clone, Copy, PartialEq)]
pub(crate) struct Head {
    start: u32,
    count: u8,
    kind: Kind,
}

/// Statements in order, which contracts see as their list. A statement takes 8 bytes, and 8 more for each of its arguments;
/// a name or a quoted text takes its bytes and 8 more.
pub struct Stmts {
    heads: Vec<Head>,
    terms: Terms,
}

impl Drop for Stmts {
    // Written out, so that it is proved here once, and not in each crate that lets one go.
    fn drop(self) {
        let Self { heads: _, terms: _ } = self;
    }
}

impl Model for Stmts {
    ghost use Rattle.std.specs.Prelude.{List};
    ghost use Rattle.vx_image.specs.Small.{stmts_in, HaveTerms};
    ghost use Rattle.vx_image.specs.declared.stmt.Stmt.{Stmt};

    ghost Value = { List Stmt };

    ghost view = { λ s. stmts_in s.terms s.heads.items };

    ghost invariant = { λ s. HaveTerms s.terms s.heads.items };
}

fn target_of(arg: Arg) -> Target
    ensures { result ≡ place arg }
{
    match arg {
        Arg::Target(t) => t,
        _ => Target::R0,
    }
}

fn operand_of(arg: Arg) -> Operand
    ensures { result ≡ operand_of arg }
{
    match arg {
        Arg::Value(x) => x,
        _ => Operand::R0,
    }
}

fn number_of(arg: Arg) -> u32
    ensures { result ≡ number arg }
{
    match arg {
        Arg::Value(Operand::Num(n)) => n,
        _ => 0,
    }
}

// An argument of a statement, `Unused` past its last.
#[tactic(auto, using(crate::proofs::KeptStmts::own_arg, crate::proofs::KeptStmts::no_arg_behind))]
pub(crate) fn arg_at(terms: &Terms, head: &Head, k: u8) -> Arg
    ensures { result ≡ arg_in (own terms.now head.now) k }
{
    if k < head.count {
        terms.arg(head.start as usize + k as usize)
    } else {
        Arg::Unused
    }
}

// The quoted text of a statement, empty if it has none.
#[tactic(auto, using(crate::proofs::KeptStmts::own_text, crate::proofs::KeptStmts::no_text_behind))]
fn text_at<'a>(terms: &'a Terms, head: &Head) -> &'a [u8]
    ensures { result.now ≡ text_in (own terms.now head.now) 0 }
{
    if 0 < head.count {
        terms.text(head.start as usize)
    } else {
        &[]
    }
}

pub(crate) fn args_at(terms: &Terms, head: &Head) -> Args
    ensures { result ≡ args_in (own terms.now head.now) }
{
    Args {
        a0: arg_at(terms, head, 0),
        a1: arg_at(terms, head, 1),
        a2: arg_at(terms, head, 2),
        a3: arg_at(terms, head, 3),
        a4: arg_at(terms, head, 4),
        a5: arg_at(terms, head, 5),
        a6: arg_at(terms, head, 6),
        a7: arg_at(terms, head, 7),
        a8: arg_at(terms, head, 8),
    }
}

fn target_at(terms: &Terms, head: &Head, k: u8) -> Target
    ensures { result ≡ place (arg_in (own terms.now head.now) k) }
{
    target_of(arg_at(terms, head, k))
}

fn operand_at(terms: &Terms, head: &Head, k: u8) -> Operand
    ensures { result ≡ operand_of (arg_in (own terms.now head.now) k) }
{
    operand_of(arg_at(terms, head, k))
}

fn number_at(terms: &Terms, head: &Head, k: u8) -> u32
    ensures { result ≡ number (arg_in (own terms.now head.now) k) }
{
    number_of(arg_at(terms, head, k))
}

// A statement with its terms.
fn stmt_at<'a>(terms: &'a Terms, head: &Head) -> StmtRef<'a>
    ensures { meant result ≡ stmt_by head.now.kind (own terms.now head.now) }
{
    match head.kind {
        Kind::Let => StmtRef::Let(target_at(terms, head, 0), operand_at(terms, head, 1)),
        Kind::Add => StmtRef::Add(
            target_at(terms, head, 0),
            operand_at(terms, head, 1),
            operand_at(terms, head, 2),
        ),
        Kind::Sub => StmtRef::Sub(
            target_at(terms, head, 0),
            operand_at(terms, head, 1),
            operand_at(terms, head, 2),
        ),
        Kind::Goto => StmtRef::Goto(number_at(terms, head, 0)),
        Kind::If(rel) => StmtRef::If(
            operand_at(terms, head, 0),
            rel,
            operand_at(terms, head, 1),
            number_at(terms, head, 2),
        ),
        Kind::Put(b) => StmtRef::Put(b, text_at(terms, head)),
        Kind::Byte(b) => StmtRef::Byte(target_at(terms, head, 0), b, operand_at(terms, head, 1)),
        Kind::Iosb(i, field) => StmtRef::Iosb(target_at(terms, head, 0), i, field),
        Kind::Return => StmtRef::Return,
        Kind::Service(service) => StmtRef::Service(CallRef::new(terms, *head, service)),
    }
}

// How many arguments stand up to the last that is used.
#[tactic(auto, using(crate::proofs::KeptStmts::one_unused_more))]
fn used(args: &[Arg]) -> usize
    ensures few { result ≤ length args.now }
    ensures unused { AllByRecursion (λ a. a ≡ arg.Unused) (drop result args.now) }
{
    let mut used = args.len();
    while 0 < used && matches!(args[used - 1], Arg::Unused) {
        used -= 1;
    }
    used
}

impl Stmts {
    /// No statements. Takes no memory.
    pub fn new(alloc: Global) -> Stmts
        ensures { result ≡ [] }
    {
        Stmts {
            heads: Vec::new(alloc),
            terms: Terms::new(alloc),
        }
    }

    /// How many there are.
    pub fn len(&self) -> usize
        ensures { result ≡ length self.now }
    {
        self.heads.len()
    }

    /// The statement at a place, from 0, if there is one. Takes no memory.
    pub fn get(&self, place: usize) -> Option<StmtRef<'_>>
        ensures { option_map meant result ≡ slice_get self.now place }
    {
        match self.heads.get(place) {
            Some(head) => Some(stmt_at(&self.terms, head)),
            None => None,
        }
    }

    /// The statement at a place, from 0. Takes no memory.
    pub fn at(&self, place: usize) -> StmtRef<'_>
        requires { place < length self.now }
        ensures { meant result ≡ slice_index_or self.now place (meant result) }
    {
        stmt_at(&self.terms, &self.heads[place])
    }

    // Appends a statement with arguments, or changes nothing.
    #[tactic(auto, using(crate::proofs::KeptStmts::stmts_and_one, crate::proofs::KeptStmts::have_and_one))]
    fn push_args(&mut self, kind: Kind, args: &[Arg]) -> Result<(), NoMemory>
        requires { length args.now ≤ 9 }
        ensures ok { OnOk result (self.new ≡ self.old ++ stmt_by kind (map OfArg args.now) ∷ []) }
        ensures err { OnErr result (self.new ≡ self.old) }
    {
        let start = short(self.terms.len())?;
        self.terms.push_all(args)?;
        self.heads.push(Head {
            start,
            count: args.len() as u8,
            kind,
        })?;
        Ok(())
    }

    // Appends a statement with a quoted text, or changes nothing.
    #[tactic(auto, using(crate::proofs::KeptStmts::stmts_and_one, crate::proofs::KeptStmts::have_and_one))]
    fn push_text(&mut self, kind: Kind, text: &[u8]) -> Result<(), NoMemory>
        ensures ok { OnOk result (self.new ≡ self.old ++ stmt_by kind (OfText text.now ∷ []) ∷ []) }
        ensures err { OnErr result (self.new ≡ self.old) }
    {
        let start = short(self.terms.len())?;
        self.terms.push_text(text)?;
        self.heads.push(Head {
            start,
            count: 1,
            kind,
        })?;
        Ok(())
    }

    // Appends a call, or changes nothing.
    #[tactic(auto, using(crate::proofs::KeptStmts::all_args))]
    fn push_call(&mut self, call: &Call) -> Result<(), NoMemory>
        ensures ok { OnOk result (self.new ≡ self.old ++ stmt.Service call.now ∷ []) }
        ensures err { OnErr result (self.new ≡ self.old) }
    {
        let args = &call.args;
        let all = [
            args.a0, args.a1, args.a2, args.a3, args.a4, args.a5, args.a6, args.a7, args.a8,
        ];
        self.push_args(Kind::Service(call.service), &all[..used(&all)])
    }

    /// Appends a statement, or changes nothing.
    pub fn push(&mut self, stmt: Stmt) -> Result<(), NoMemory>
        ensures ok { OnOk result (self.new ≡ self.old ++ stmt ∷ []) }
        ensures err { OnErr result (self.new ≡ self.old) }
    {
        match stmt {
            Stmt::Let(t, x) => self.push_args(Kind::Let, &[Arg::Target(t), Arg::Value(x)]),
            Stmt::Add(t, x, y) => {
                self.push_args(Kind::Add, &[Arg::Target(t), Arg::Value(x), Arg::Value(y)])
            }
            Stmt::Sub(t, x, y) => {
                self.push_args(Kind::Sub, &[Arg::Target(t), Arg::Value(x), Arg::Value(y)])
            }
            Stmt::Goto(k) => self.push_args(Kind::Goto, &[Arg::Value(Operand::Num(k))]),
            Stmt::If(x, rel, y, k) => self.push_args(
                Kind::If(rel),
                &[Arg::Value(x), Arg::Value(y), Arg::Value(Operand::Num(k))],
            ),
            Stmt::Put(b, bytes) => self.push_text(Kind::Put(b), bytes.as_slice()),
            Stmt::Byte(t, b, x) => {
                self.push_args(Kind::Byte(b), &[Arg::Target(t), Arg::Value(x)])
            }
            Stmt::Iosb(t, i, field) => self.push_args(Kind::Iosb(i, field), &[Arg::Target(t)]),
            Stmt::Return => self.push_args(Kind::Return, &[]),
            Stmt::Service(call) => self.push_call(&call),
        }
    }

    /// The statements of a `Vec`.
    pub fn from_vec(alloc: Global, stmts: Vec<Stmt>) -> Result<Stmts, NoMemory>
        ensures { IfOk result (λ all. all ≡ stmts.items) }
    {
        let mut all = Stmts::new(alloc);
        for stmt in stmts {
            all.push(stmt)?;
        }
        Ok(all)
    }
}

impl Same for Head {
    fn same(&self, other: &Head) -> bool {
        *self == *other
    }
}

// Whether two lists have the same small form. The same statements may have more than one: a text may stand at another place.
fn same_form(a: &Stmts, b: &Stmts) -> bool
    ensures { IsTrue result → a.now ≡ b.now }
{
    same_items(a.heads.as_slice(), b.heads.as_slice()) && a.terms.same_form(&b.terms)
}

// Whether two lists have the same statements, place by place.
#[tactic(auto, using(crate::proofs::KeptStmts::same_further))]
fn same_each(a: &Stmts, b: &Stmts) -> bool
    ensures { IsTrue result ↔ (a.now ≡ b.now) }
{
    if a.len() != b.len() {
        return false;
    }
    for i in 0..a.len() {
        if !same_at(a, b, i) {
            return false;
        }
    }
    true
}

impl Same for Stmts {
    fn same(&self, other: &Stmts) -> bool {
        same_form(self, other) || same_each(self, other)
    }
}

// Whether two lists have the same statement at a place.
fn same_at(a: &Stmts, b: &Stmts, i: usize) -> bool
    ensures { IsTrue result ↔ (slice_get a.now i ≡ slice_get b.now i) }
{
    match (a.get(i), b.get(i)) {
        (Some(a), Some(b)) => same_stmt(&a, &b),
        (None, None) => true,
        _ => false,
    }
}

impl Duplicate for Stmts {
    fn duplicate(&self) -> Result<Stmts, NoMemory> {
        Ok(Stmts {
            heads: self.heads.clone()?,
            terms: self.terms.duplicate()?,
        })
    }
}
