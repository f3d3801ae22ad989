//! The values of a module, which no file shows: dimensions, and what squares do to vectors.
ghost use Rattle.std.specs.Prelude.{◌≡◌, pos, ◌+ℤ◌, length};
ghost use Rattle.milnor_basis.specs.Exponents.{degree_of};

use f2_vec::BitVec;
use free_module::Target;
use memory::Memory;
use milnor_basis::{Basis, Exps};
use module_check::{Module, check};
use module_json::{file_is_unique, parts_are_unique, read};
use std::alloc::Global;
use std::test::Fail;

/// Sq^n.
fn sq(n: u16) -> Exps {
    Exps::of([n, 0, 0, 0, 0, 0, 0, 0])
}

/// Two cells in degrees 0 and 1, which Sq1 joins.
fn two_cells(alloc: Global) -> Result<Module, Fail> {
    let file =
        r#"{"type":"finite dimensional module","gens":{"x0":0,"x1":1},"actions":["Sq1 x0 = x1"]}"#;
    let spec = read(alloc, file.as_bytes())?;
    Ok(check(alloc, &spec)?)
}

#[test]
fn values(rt: HostRuntime) -> Result<(), Fail> {
    let alloc = rt.alloc();
    file_is_unique();
    parts_are_unique();
    let module = two_cells(alloc)?;
    assert_eq!(rt; (module.count(), module.bottom(), module.top()), (2, 0, 1));
    assert_eq!(rt; (module.name(1), module.degree(1)), ("x1", 1));
    for (t, dim) in [(-1, 0), (0, 1), (2, 0)] {
        assert_eq!(rt; module.dim_in(t), dim, "in degree {t}");
    }
    for (n, first) in [(0, Some(0)), (1, None)] {
        assert_eq!(rt; module.act(alloc, &sq(n), 1)?.first_one(), first, "Sq{n}");
    }
    let value = module.act(alloc, &sq(1), 0)?;
    assert_eq!(rt; value.len(), module.dim_in(1));
    assert_eq!(rt;
        module.sum_text(alloc, 1, &value)?.as_slice(),
        b"x1".as_slice()
    );
    Ok(())
}

/// Sq(R) on a vector of degree `t` of any target.
fn acted<T: Target>(
    alloc: Global,
    target: &T,
    basis: &Basis,
    r: &Exps,
    t: i32,
    v: &BitVec,
) -> Result<BitVec, Memory>
    requires width { length v.now ≡ (T.graded target.now).width t }
    requires reach { T.reaches target.now basis.now (t +ℤ pos (degree_of r.now)) }
{
    target.act(alloc, basis, r, t, v)
}

#[test]
fn target(rt: HostRuntime) -> Result<(), Fail> {
    let alloc = rt.alloc();
    let module = two_cells(alloc)?;
    let basis = Basis::new(alloc, 1)?;
    assert_eq!(rt; module.dim(&basis, 1), 1);
    let mut v = BitVec::zero(alloc, module.dim_in(0))?;
    assert_eq!(rt; v.len(), 1);
    v.set(0, true);
    let image = acted(alloc, &module, &basis, &sq(1), 0, &v)?;
    assert_eq!(rt; image.first_one(), Some(0));
    Ok(())
}
