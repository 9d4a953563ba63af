ghost use Rattle.std.specs.Prelude.{◌≡◌};
ghost use Rattle.lil_language.specs.Units as spec;

use lil_base::{Place, same_bytes};
use lil_language::{Block, Decl, Unit};
use lil_text::Ident;

/// The sooner of a place and one that was found before.
fn sooner(found: Option<Place>, place: Place) -> Place
    ensures { result ≡ spec.sooner found place }
{
    match found {
        None => place,
        Some(first) => {
            if place.offset < first.offset {
                place
            } else {
                first
            }
        }
    }
}

/// The least place so far, with that of a name behind END too where it is another than the name of what ends there.
#[tactic(auto, unfolding(lil_language::specs::Units::least))]
fn with_end(found: Option<Place>, name: &Ident, end: &Ident) -> Option<Place>
    ensures { result ≡ spec.least found (spec.wrong_end name.now end.now) }
{
    if same_bytes(end.name.as_slice(), name.name.as_slice()) {
        found
    } else {
        Some(sooner(found, end.place))
    }
}

/// The least place so far, with those of declarations too.
#[cycle(ends)]
#[tactic(auto, using(crate::proofs::Layers::ends_left))]
fn with_decls(found: Option<Place>, decls: &[Decl]) -> Option<Place>
    ensures { result ≡ spec.least found (spec.all_ends decls.now) }
{
    let mut least = found;
    for decl in decls {
        least = with_decl(least, decl);
    }
    least
}

/// The least place so far, with those of a declaration too.
#[cycle(ends)]
#[tactic(auto, using(crate::proofs::Layers::constant_ends, crate::proofs::Layers::type_ends, crate::proofs::Layers::variable_ends, crate::proofs::Layers::procedure_ends), unfolding(lil_language::specs::Units::least))]
fn with_decl(found: Option<Place>, decl: &Decl) -> Option<Place>
    ensures { result ≡ spec.least found (spec.decl_ends decl.now) }
{
    match decl {
        Decl::ConstIs(_, _) => found,
        Decl::TypeIs(_, _) => found,
        Decl::VarsAre(_, _) => found,
        Decl::ProcIs(heading, None) => found,
        Decl::ProcIs(heading, Some(block)) => with_block(found, &heading.name, block),
    }
}

/// The least place so far, with those of a procedure's block too.
#[cycle(ends)]
#[tactic(auto, using(crate::proofs::Layers::block_is, crate::proofs::Layers::least_append))]
fn with_block(found: Option<Place>, name: &Ident, block: &Block) -> Option<Place>
    ensures { result ≡ spec.least found (spec.block_ends block.now name.now) }
{
    let inner = with_decls(found, block.decls.as_slice());
    with_end(inner, name, &block.end)
}

/// The least place of a name behind END that is another than the name of what ends there.
#[tactic(auto, using(crate::proofs::Layers::least_append))]
pub fn wrong_end(unit: &Unit) -> Option<Place>
    ensures { result ≡ spec.least None (spec.wrong_ends unit.now) }
{
    let inner = with_decls(None, unit.decls.as_slice());
    with_end(inner, &unit.head.name, &unit.end)
}
