//! A name declared again keeps its position, and takes no other kind, nor other elements.

ghost use Rattle.form_names.specs.Names.{IsKind};

use form_base::{Id, Name};
use form_names::{DeclareError, Dimension, Kind, Names};
use std::alloc::{AllocError, Global};
use std::test::Fail;

/// The position at which the name stands once it is declared, and none where it isn't.
fn declared(
    alloc: Global,
    names: &mut Names,
    name: &str,
    kind: Kind,
) -> Result<Option<u32>, AllocError>
    requires { IsKind names.old kind }
{
    if names.len() > 9 {
        return Err(AllocError);
    }
    match names.declare(Name::new(alloc, name)?, kind) {
        Ok(id) => Ok(Some(id.position())),
        Err(DeclareError::Redeclared) => Ok(None),
        Err(DeclareError::Memory) => Err(AllocError),
    }
}

/// The dimension of the name, none where it is no index.
fn dimension(names: &Names, name: &str) -> Option<Dimension> {
    let id = names.lookup(name)?;
    names.dimension(id)
}

#[test]
fn names_keep_their_positions(rt: HostRuntime) -> Result<(), Fail> {
    let alloc = rt.alloc();
    let mut names = Names::new(alloc);
    let first = declared(alloc, &mut names, "x", Kind::Symbol)?;
    let second = declared(alloc, &mut names, "y", Kind::Symbol)?;
    let again = declared(alloc, &mut names, "x", Kind::Symbol)?;
    let otherwise = declared(alloc, &mut names, "x", Kind::Expression)?;
    assert!(rt; first == Some(0) && second == Some(1) && again == Some(0));
    assert!(rt; otherwise == None && names.lookup("z") == None);
    assert!(rt; names.lookup("y") == Some(Id::new(1)));
    let four = Kind::Index(Dimension::Number(4));
    let five = Kind::Index(Dimension::Number(5));
    let index = declared(alloc, &mut names, "mu", four)?;
    let longer = declared(alloc, &mut names, "mu", five)?;
    assert!(rt; index == Some(2) && longer == None);
    assert!(rt; dimension(&names, "mu") == Some(Dimension::Number(4)));
    assert!(rt; dimension(&names, "x") == None);
    Ok(())
}
