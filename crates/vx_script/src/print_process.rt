//! The canonical line of a process declaration.

ghost use Rattle.std.specs.Prelude.{◌≡◌, ◌++◌, ◌∷◌, [], OnOk, IfOk, decimal, slice_index_or, if◌then◌else◌};
ghost use Rattle.vx_image.specs.Absent.{no_image};
ghost use Rattle.vx_script.specs.Script.{and_names, names_text, held_names, decl_names, rights_keys, limits_keys, start_keys, decl_line};

use std::alloc::Global;
use vx_base::{Bytes, Need, NoMemory, Privs};
use vx_image::{Image, ProcDecl};
use vx_table::mode_name;
use vx_text::print_num;

/// The name of the image at a place, empty if there is none.
fn image_name(images: &[Image], place: u32) -> &[u8]
    ensures { result.now ≡ (slice_index_or images.now place no_image).name }
{
    match images.get(place as usize) {
        Some(image) => image.name.text(),
        None => &[],
    }
}

/// Appends a key, and its number.
fn print_key(key: &[u8], n: u32, out: &mut Bytes) -> Result<(), NoMemory>
    ensures { OnOk result (out.new ≡ out.old ++ key.now ++ decimal n) }
{
    out.push_all(key)?;
    print_num(out, u64::from(n))
}

/// Appends a privilege's name behind a plus, if it is held.
fn print_held(is_held: bool, name: &[u8], out: &mut Bytes) -> Result<(), NoMemory>
    ensures { OnOk result (out.new ≡ out.old ++ and_names (if is_held then name.now ∷ [] else [])) }
{
    if is_held {
        out.push_all(b"+")?;
        out.push_all(name)?;
    }
    Ok(())
}

/// The names of the privileges that are held, each behind a plus.
fn names_behind(alloc: Global, privs: Privs) -> Result<Bytes, NoMemory>
    ensures { IfOk result (λ names. names ≡ and_names (held_names privs)) }
{
    let mut names = Bytes::new(alloc);
    print_held(privs.cmexec, b"CMEXEC", &mut names)?;
    print_held(privs.cmkrnl, b"CMKRNL", &mut names)?;
    print_held(privs.group, b"GROUP", &mut names)?;
    print_held(privs.prmceb, b"PRMCEB", &mut names)?;
    print_held(privs.prmmbx, b"PRMMBX", &mut names)?;
    print_held(privs.world, b"WORLD", &mut names)?;
    Ok(names)
}

fn print_privs(alloc: Global, privs: Privs, out: &mut Bytes) -> Result<(), NoMemory>
    ensures { OnOk result (out.new ≡ out.old ++ names_text (held_names privs)) }
{
    let names = names_behind(alloc, privs)?;
    match names.as_slice() {
        [] => out.push_all(b"NONE"),
        [_, rest @ ..] => out.push_all(rest),
    }
}

/// Appends a declaration's name, and its image's.
#[tactic(auto, unfolding(crate::specs::Script::decl_names))]
fn print_names(images: &[Image], decl: &ProcDecl, out: &mut Bytes) -> Result<(), NoMemory>
    ensures { OnOk result (out.new ≡ out.old ++ decl_names images.now decl.now) }
{
    out.push_all(b"PROCESS ")?;
    out.push_all(decl.name.text())?;
    out.push_all(b" ")?;
    out.push_all(image_name(images, decl.image))
}

/// Appends the keys of the identification code and the mode.
#[tactic(auto, unfolding(crate::specs::Script::rights_keys))]
fn print_rights(decl: &ProcDecl, out: &mut Bytes) -> Result<(), NoMemory>
    ensures { OnOk result (out.new ≡ out.old ++ rights_keys decl.now) }
{
    print_key(b" UIC=", decl.group, out)?;
    print_key(b":", decl.member, out)?;
    out.push_all(b" MODE=")?;
    out.push_all(mode_name(decl.mode))
}

/// Appends the keys of the quota limits.
#[tactic(auto, unfolding(crate::specs::Script::limits_keys))]
fn print_limits(limits: Need, out: &mut Bytes) -> Result<(), NoMemory>
    ensures { OnOk result (out.new ≡ out.old ++ limits_keys limits) }
{
    print_key(b" ASTLM=", limits.ast, out)?;
    print_key(b" BIOLM=", limits.bio, out)?;
    print_key(b" DIOLM=", limits.dio, out)?;
    print_key(b" BYTLM=", limits.byt, out)?;
    print_key(b" TQELM=", limits.tqe, out)
}

/// Appends the keys of the privileges and the start.
#[tactic(auto, unfolding(crate::specs::Script::start_keys))]
fn print_start(alloc: Global, decl: &ProcDecl, out: &mut Bytes) -> Result<(), NoMemory>
    ensures { OnOk result (out.new ≡ out.old ++ start_keys decl.now) }
{
    out.push_all(b" PRIV=")?;
    print_privs(alloc, decl.privs, out)?;
    print_key(b" START=", u32::from(decl.start), out)
}

/// Appends a process declaration's line, with all its keys.
#[tactic(auto, unfolding(crate::specs::Script::decl_line))]
pub fn print_process(
    alloc: Global,
    images: &[Image],
    decl: &ProcDecl,
    out: &mut Bytes,
) -> Result<(), NoMemory>
    ensures { OnOk result (out.new ≡ out.old ++ (decl_line images.now decl.now ++ 10 ∷ [])) }
{
    print_names(images, decl, out)?;
    print_rights(decl, out)?;
    print_limits(decl.limits, out)?;
    print_start(alloc, decl, out)?;
    out.push_all(b"\n")
}
