ghost use Rattle.std.specs.Prelude.{◌≡◌, IfOk, OnSome, true, slice_get};
ghost use Rattle.std.specs.Option.{option_copied};
ghost use Rattle.lil_base.specs.Names.{is_name};
ghost use Rattle.lil_scope.specs.Names.{same};
ghost use Rattle.lil_interfaces.specs.Interfaces as spec;

use lil_base::{Items, Key, Memory, Name, Shared, Text, same_bytes};
use lil_format::Wanted;
use lil_scope::Thing;
use lil_types::TypeTable;
use std::alloc::Global;

/// A name that a definition module declares, whether it is exported, and what it stands for. Numbers of types are those of the
/// interface's own table, and numbers of texts those of its own texts. A variable or procedure of its own is external, with 0 for
/// the module.
#[derive(Drop)]
pub struct Exported {
    pub shown: bool,
    pub name: Name,
    pub what: Thing,
}

/// What a definition module says (Programming in Modula-2, Definition and implementation parts): its key, 0 where it is resident;
/// the modules on which it rests; its types, the texts of its constants and its names, in their order. A type belongs to the module
/// itself, 0, or to the k-th of those on which it rests.
#[derive(Drop)]
pub struct Interface {
    pub name: Name,
    pub key: Key,
    pub rests: Items<Wanted>,
    pub types: TypeTable,
    pub texts: Items<Shared<Text>>,
    pub names: Items<Exported>,
}

/// Interfaces, of which the first of a name counts.
pub type Interfaces = Items<Interface>;

/// Whether two texts are the same.
pub fn same_text(a: &[u8], b: &[u8]) -> bool
    ensures { result ≡ same a.now b.now }
{
    same_bytes(a, b)
}

/// Whether two names are the same.
pub fn same_name(a: &Name, b: &Name) -> bool
    ensures { result ≡ same a.now b.now }
{
    same_text(a.as_slice(), b.as_slice())
}

/// The interface of this name.
pub fn named<'a>(interfaces: &'a [Interface], name: &Name) -> Option<&'a Interface>
    ensures { option_copied result ≡ spec.named interfaces.now name.now }
{
    for one in interfaces {
        if same_name(name, &one.name) {
            return Some(one);
        }
    }
    None
}

/// The name with these bytes.
pub(crate) fn literal(alloc: Global, text: &[u8]) -> Result<Name, Memory>
    requires { is_name text.now ≡ true }
    ensures { IfOk result (λ n. n ≡ text.now) }
{
    match Name::of_slice(alloc, text)? {
        Some(name) => Ok(name),
        None => unreachable!(),
    }
}
