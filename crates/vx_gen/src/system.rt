//! Makes the generated system.

ghost use Rattle.std.specs.Prelude.{◌≡◌, ◌≤◌, ◌*◌, IfOk, IsTrue};
ghost use Rattle.vx_base.specs.Name.{is_name};
ghost use Rattle.vx_image.specs.WellFormed.{IsWellFormed};
ghost use Rattle.vx_gen.specs.Generated as spec;

use crate::statements::{
    adds_one, assigns_unit, exits, makes_mailbox, name, repeats_below, requests,
};
use std::alloc::Global;
use vx_base::{Bytes, Func, Mode, Name, Need, NoMemory, Operand, Privs, Sequence};
use vx_image::{
    Image, Images, Label, Labels, Lines, Numbers, ProcDecl, ProcDecls, Stmt, Stmts, System,
    UnitDecl, UnitDecls,
};
use vx_text::print_num;

// An image with the label NEXT at a place.
fn image_of(alloc: Global, text: &[u8], next: u32, stmts: Vec<Stmt>) -> Result<Image, NoMemory>
    requires { IsTrue (is_name text.now) }
    ensures { IfOk result (λ image. image ≡ spec.image_of text.now next stmts.items) }
{
    let mut labels = Labels::new(alloc);
    labels.push(Label {
        name: name(b"NEXT"),
        place: next,
    })?;
    Ok(Image {
        name: name(text),
        labels,
        stmts: Stmts::from_vec(alloc, stmts)?,
    })
}

// The image that reads k messages, and writes each to a block of its own.
fn consumer(alloc: Global, k: u32) -> Result<Image, NoMemory>
    ensures { IfOk result (λ image. image ≡ spec.consumer k) }
{
    let stmts = vec![in alloc;
        makes_mailbox(),
        assigns_unit(),
        requests(1, b'M', Func::Read, 80, Operand::Num(0)),
        requests(2, b'D', Func::Write, 80, Operand::Var(b'B')),
        adds_one(b'B'),
        repeats_below(b'B', k),
        exits(),
    ]?;
    image_of(alloc, b"CONS", 2, stmts)
}

// The image that writes 20 messages.
fn producer(alloc: Global) -> Result<Image, NoMemory>
    ensures { IfOk result (λ image. image ≡ spec.producer) }
{
    let stmts = vec![in alloc;
        makes_mailbox(),
        requests(1, b'M', Func::Write, 40, Operand::Num(0)),
        adds_one(b'A'),
        repeats_below(b'A', 20),
        exits(),
    ]?;
    image_of(alloc, b"PROD", 1, stmts)
}

// A process of an image, with all keys as a script has them by default.
fn declared(name: Name, image: u32) -> ProcDecl
    ensures { result ≡ spec.declared name image }
{
    ProcDecl {
        name,
        image,
        group: 1,
        member: 1,
        mode: Mode::User,
        limits: Need {
            ast: 24,
            bio: 18,
            dio: 18,
            byt: 8192,
            tqe: 10,
        },
        privs: Privs {
            cmexec: false,
            cmkrnl: false,
            group: false,
            prmceb: false,
            prmmbx: false,
            world: false,
        },
        start: true,
    }
}

// The name Pi.
#[tactic(auto, using(crate::proofs::Names::is_sender))]
fn sender_name(alloc: Global, i: u32) -> Result<Name, NoMemory>
    requires { i ≤ 200 }
    ensures { IfOk result (λ name. name ≡ (spec.sender i).name) }
{
    let mut text = Bytes::new(alloc);
    text.push_all(b"P")?;
    print_num(&mut text, u64::from(i))?;
    Ok(name(text.as_slice()))
}

// C, and P1 to Pn.
#[tactic(auto, using(crate::proofs::Names::senders_more))]
fn decls(alloc: Global, n: u32) -> Result<ProcDecls, NoMemory>
    requires { n ≤ 200 }
    ensures { IfOk result (λ decls. decls ≡ (spec.generated n).decls) }
{
    let mut decls = ProcDecls::new(alloc);
    decls.push(declared(name(b"C"), 0))?;
    for i in 0..n {
        decls.push(declared(sender_name(alloc, 1 + i)?, 1))?;
    }
    Ok(decls)
}

// The block unit DK.
fn units(alloc: Global) -> Result<UnitDecls, NoMemory>
    ensures { IfOk result (λ units. units ≡ (spec.generated 1).units) }
{
    let mut units = UnitDecls::new(alloc);
    units.push(UnitDecl {
        name: name(b"DK"),
        blocks: 4096,
        inputs: Lines::new(alloc),
        faults: Numbers::new(alloc),
    })?;
    Ok(units)
}

// The generated system.
fn system(alloc: Global, n: u32) -> Result<System, NoMemory>
    requires { n ≤ 200 }
    ensures { IfOk result (λ s. s ≡ spec.generated n) }
{
    let images = vec![in alloc; consumer(alloc, 20 * n)?, producer(alloc)?]?;
    Ok(System {
        units: units(alloc)?,
        images: Images::from_vec(images),
        decls: decls(alloc, n)?,
    })
}

/// The generated system for n, 1 to 200: a consumer and n producers.
pub fn generate(alloc: Global, n: u32) -> Result<System, NoMemory>
    requires above { 1 ≤ n }
    requires within { n ≤ 200 }
    ensures system { IfOk result (λ s. s ≡ spec.generated n) }
    ensures formed { IfOk result IsWellFormed }
{
    system(alloc, n)
}
