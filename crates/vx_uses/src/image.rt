//! Local statements run on a process's store.

ghost use Rattle.std.specs.Prelude.{IfOk};
ghost use Rattle.vx_image.specs.WellFormed.{IsImage};

use std::alloc::Global;
use std::test::*;
use vx_base::{Name, Operand, Pid, Target};
use vx_image::{Image, Labels, Stmt, Stmts, Stop, Store, advance};

fn small_image(alloc: Global) -> Result<Image, Fail>
    ensures { IfOk result (λ image. IsImage image) }
{
    let a = Target::Var(b'A');
    Ok(Image {
        name: Name::new(b"MAIN").ok_or("a name")?,
        labels: Labels::new(alloc),
        stmts: Stmts::from_vec(
            alloc,
            vec![in alloc; Stmt::Let(a, Operand::Num(5)), Stmt::Return]?,
        )?,
    })
}

#[test]
fn an_image_runs_to_its_return(rt: HostRuntime) -> Result<(), Fail> {
    let image = small_image(rt.alloc())?;
    let mut store = Store::new(rt.alloc())?;
    let (place, stop) = advance(&image, &mut store, 0, 3, Pid(1));
    assert_eq!(rt; store.value(Target::Var(b'A')), 5);
    assert_eq!(rt; place, 1);
    assert!(rt; matches!(stop, Stop::Return));
    Ok(())
}
