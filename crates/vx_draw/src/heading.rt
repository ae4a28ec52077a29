//! The names of the columns.

ghost use Rattle.std.specs.Prelude.{◌≡◌, ◌++◌, ◌∷◌, decimal, OnOk, IfOk};
ghost use Rattle.vx_draw.specs.Headings.{started_names, effects_names, new_names, process_names, new_name, is_cluster, has_cluster, has_clusters};

use std::alloc::Global;
use vx_base::{Bytes, Effect, Name, NoMemory, Rec, Sequence};
use vx_image::{ProcDecl, System};
use vx_text::print_num;

// Appends the names of the processes that are there from the start.
fn add_started(decls: &[ProcDecl], names: &mut Sequence<Name>) -> Result<(), NoMemory>
    ensures { OnOk result (names.new ≡ names.old ++ started_names decls.now) }
{
    for decl in decls {
        if decl.start {
            names.push(decl.name)?;
        }
    }
    Ok(())
}

// Appends the name of the process that an effect made, if it made one.
fn add_new(effect: &Effect, names: &mut Sequence<Name>) -> Result<(), NoMemory>
    ensures { OnOk result (names.new ≡ names.old ++ new_name effect.now) }
{
    match effect {
        Effect::New { p: _, name } => names.push(*name),
        _ => Ok(()),
    }
}

// Appends the names of the processes that effects made.
fn add_effects(effects: &[Effect], names: &mut Sequence<Name>) -> Result<(), NoMemory>
    ensures { OnOk result (names.new ≡ names.old ++ effects_names effects.now) }
{
    for effect in effects {
        add_new(effect, names)?;
    }
    Ok(())
}

// Appends the names of the processes that records made.
fn add_made(recs: &[Rec], names: &mut Sequence<Name>) -> Result<(), NoMemory>
    ensures { OnOk result (names.new ≡ names.old ++ new_names recs.now) }
{
    for rec in recs {
        add_effects(rec.effects.as_slice(), names)?;
    }
    Ok(())
}

/// The names of all processes of a run, by their numbers from 1.
pub fn process_names(
    alloc: Global,
    system: &System,
    recs: &[Rec],
) -> Result<Sequence<Name>, NoMemory>
    ensures { IfOk result (λ names. names ≡ process_names system.now recs.now) }
{
    let mut names = Sequence::new(alloc);
    add_started(system.decls.as_slice(), &mut names)?;
    add_made(recs, &mut names)?;
    Ok(names)
}

/// The heading of process n: its number, a space and its name. Takes memory.
pub fn process_heading(alloc: Global, n: u64, name: &Name) -> Result<Bytes, NoMemory>
    ensures { IfOk result (λ text. text ≡ decimal n ++ 32 ∷ name.now) }
{
    let mut text = Bytes::new(alloc);
    print_num(&mut text, n)?;
    text.push_all(b" ")?;
    text.push_all(name.text())?;
    Ok(text)
}

fn is_cluster(effect: &Effect) -> bool
    ensures { result ≡ is_cluster effect.now }
{
    match effect {
        Effect::Cef { .. } => true,
        _ => false,
    }
}

fn has_cluster(effects: &[Effect]) -> bool
    ensures { result ≡ has_cluster effects.now }
{
    effects.iter().any(|effect| is_cluster(effect))
}

/// Whether records have a common cluster.
pub fn has_clusters(recs: &[Rec]) -> bool
    ensures { result ≡ has_clusters recs.now }
{
    recs.iter().any(|rec| has_cluster(rec.effects.as_slice()))
}
