ghost use Rattle.std.specs.Prelude.{◌≡◌, ◌∷◌, ◌++◌, [], IfOk, min, true, codes};
ghost use Rattle.lil_base.specs.Names.{is_name};
ghost use Rattle.lil_types.specs.Types.{char};
ghost use Rattle.lil_types.specs.declared.table.TypeForm.TheVariants as form;
ghost use Rattle.lil_scope.specs.declared.thing.Kind.TheVariants as kind;
ghost use Rattle.lil_scope.specs.declared.thing.Thing.TheVariants as thing;
ghost use Rattle.lil_interfaces.specs.Interfaces as spec;

use crate::moving::copied_names;
use crate::surface::{Exported, Interface, Interfaces, literal, same_name};
use lil_base::{Items, Key, Memory, Name, beside};
use lil_declared::Resident;
use lil_scope::{Kind, Thing};
use lil_types::{
    ADDRESS, BOOLEAN, CARDINAL, CHAR, Fields, INTEGER, PROC, PROCESS, Parameter, TypeForm, TypeId,
    TypeTable, add, own,
};
use std::alloc::Global;

fn value(sort: TypeId) -> Parameter
    ensures { result ≡ spec.value sort }
{
    Parameter {
        by_place: false,
        open_array: false,
        sort,
    }
}

fn place(sort: TypeId) -> Parameter
    ensures { result ≡ spec.place sort }
{
    Parameter {
        by_place: true,
        ..value(sort)
    }
}

/// A procedure more, and the procedure type of its heading.
#[tactic(auto, unfolding(crate::specs::Interfaces::with_procedure))]
fn procedure(
    alloc: Global,
    of: &mut Interface,
    name: &[u8],
    what: Resident,
    parameters: &[Parameter],
) -> Result<(), Memory>
    requires { is_name name.now ≡ true }
    ensures { IfOk result (λ u. of.new ≡ spec.with_procedure of.old name.now what parameters.now) }
{
    let name = literal(alloc, name)?;
    let parameters = Items::from_slice(alloc, parameters)?;
    let origin = own(&of.types);
    if let Some(sort) = add(&mut of.types, origin, TypeForm::Procedure(parameters, None))? {
        of.names.push(Exported {
            shown: true,
            name,
            what: Thing::Resident(what, sort),
        })?;
    }
    Ok(())
}

/// A name more.
#[tactic(auto, unfolding(crate::specs::Interfaces::with_shown))]
fn show(alloc: Global, of: &mut Interface, name: &[u8], what: Thing) -> Result<(), Memory>
    requires { is_name name.now ≡ true }
    ensures { IfOk result (λ u. of.new ≡ spec.with_shown of.old name.now what) }
{
    let name = literal(alloc, name)?;
    of.names.push(Exported {
        shown: true,
        name,
        what,
    })?;
    Ok(())
}

/// A type more, and its name.
#[tactic(auto, unfolding(crate::specs::Interfaces::with_declared))]
fn declare(alloc: Global, of: &mut Interface, name: &[u8], form: TypeForm) -> Result<(), Memory>
    requires { is_name name.now ≡ true }
    ensures { IfOk result (λ u. of.new ≡ spec.with_declared of.old name.now form) }
{
    let name = literal(alloc, name)?;
    let origin = own(&of.types);
    if let Some(sort) = add(&mut of.types, origin, form)? {
        of.names.push(Exported {
            shown: true,
            name,
            what: Thing::Type(sort),
        })?;
    }
    Ok(())
}

/// A name more of an enumeration's constant.
#[tactic(auto, unfolding(crate::specs::Interfaces::with_shown))]
fn show_constant(
    alloc: Global,
    of: &mut Interface,
    name: &Name,
    sort: TypeId,
    number: usize,
) -> Result<(), Memory>
    ensures { IfOk result (λ u. of.new ≡ spec.with_shown of.old name.now (thing.Constant (kind.Scalar sort (min number 65535)))) }
{
    let name = name.copy(alloc)?;
    of.names.push(Exported {
        shown: true,
        name,
        what: Thing::Constant(Kind::Scalar(sort, number.min(65535) as u16)),
    })?;
    Ok(())
}

fn show_constants(
    alloc: Global,
    of: &mut Interface,
    sort: TypeId,
    names: &[Name],
) -> Result<(), Memory>
    ensures { IfOk result (λ u. of.new ≡ spec.with_constants of.old sort 0 names.now) }
{
    for number in 0..names.len() {
        show_constant(alloc, of, &names[number], sort, number)?;
    }
    Ok(())
}

fn push_name(alloc: Global, all: &mut Items<Name>, name: &[u8]) -> Result<(), Memory>
    requires { is_name name.now ≡ true }
    ensures { IfOk result (λ u. all.new ≡ all.old ++ name.now ∷ []) }
{
    all.push(literal(alloc, name)?)
}

/// An enumeration, which is the first type, with its constants.
fn enumerate(
    alloc: Global,
    of: &mut Interface,
    name: &[u8],
    constants: &Items<Name>,
) -> Result<(), Memory>
    requires { is_name name.now ≡ true }
    ensures { IfOk result (λ u. of.new ≡ spec.with_enumeration of.old name.now constants.now) }
{
    let names = copied_names(alloc, constants.as_slice())?;
    declare(alloc, of, name, TypeForm::Enumeration(names))?;
    show_constants(alloc, of, 16, constants.as_slice())
}

fn number_writers(alloc: Global, of: &mut Interface) -> Result<(), Memory>
    ensures { IfOk result (λ u. of.new ≡ spec.with_procedures of.old spec.number_writers) }
{
    let cardinals = [value(CARDINAL), value(CARDINAL)];
    let integers = [value(INTEGER), value(CARDINAL)];
    procedure(alloc, of, b"WriteCard", Resident::WriteCard, &cardinals)?;
    procedure(alloc, of, b"WriteInt", Resident::WriteInt, &integers)?;
    procedure(alloc, of, b"WriteOct", Resident::WriteOct, &cardinals)?;
    procedure(alloc, of, b"WriteHex", Resident::WriteHex, &cardinals)?;
    Ok(())
}

fn common_procedures(alloc: Global, of: &mut Interface) -> Result<(), Memory>
    ensures { IfOk result (λ u. of.new ≡ spec.with_procedures of.old spec.common_procedures) }
{
    let variable = [place(CHAR)];
    let character = [value(CHAR)];
    let characters = [Parameter {
        open_array: true,
        ..value(CHAR)
    }];
    procedure(alloc, of, b"Read", Resident::Read, &variable)?;
    procedure(alloc, of, b"Write", Resident::Write, &character)?;
    procedure(
        alloc,
        of,
        b"WriteString",
        Resident::WriteString,
        &characters,
    )?;
    procedure(alloc, of, b"WriteLn", Resident::WriteLn, &[])?;
    Ok(())
}

fn storers(alloc: Global, of: &mut Interface) -> Result<(), Memory>
    ensures { IfOk result (λ u. of.new ≡ spec.with_procedures of.old spec.storers) }
{
    let words = [place(ADDRESS), value(CARDINAL)];
    procedure(alloc, of, b"ALLOCATE", Resident::Allocate, &words)?;
    procedure(alloc, of, b"DEALLOCATE", Resident::Deallocate, &words)?;
    Ok(())
}

fn coroutine_procedures(alloc: Global, of: &mut Interface) -> Result<(), Memory>
    ensures { IfOk result (λ u. of.new ≡ spec.with_procedures of.old spec.coroutine_procedures) }
{
    let new = [value(PROC), value(ADDRESS), value(CARDINAL), place(PROCESS)];
    let both = [place(PROCESS), place(PROCESS)];
    procedure(alloc, of, b"NEWPROCESS", Resident::NewProcess, &new)?;
    procedure(alloc, of, b"TRANSFER", Resident::Transfer, &both)?;
    Ok(())
}

fn empty(alloc: Global, name: Name) -> Interface
    ensures { result ≡ spec.empty name }
{
    Interface {
        name,
        key: Key(0),
        rests: Items::new(alloc),
        types: TypeTable::new(alloc),
        texts: Items::new(alloc),
        names: Items::new(alloc),
    }
}

fn terminal(alloc: Global, name: Name) -> Result<Interface, Memory>
    ensures { IfOk result (λ i. i ≡ spec.terminal name) }
{
    let mut of = empty(alloc, name);
    let outcome = common_procedures(alloc, &mut of);
    let (of, _) = beside(of, outcome)?;
    Ok(of)
}

/// What InOut has beside the names of Terminal.
fn more_names(alloc: Global, of: &mut Interface) -> Result<(), Memory>
    ensures { IfOk result (λ u. of.new ≡ spec.with_procedures (spec.with_shown of.old (codes "EOL") (thing.Constant (kind.Scalar char 30))) spec.number_writers) }
{
    let end = Thing::Constant(Kind::Scalar(CHAR, 30));
    show(alloc, of, b"EOL", end)?;
    number_writers(alloc, of)?;
    Ok(())
}

fn in_out(alloc: Global, name: Name) -> Result<Interface, Memory>
    ensures { IfOk result (λ i. i ≡ spec.in_out name) }
{
    let mut of = terminal(alloc, name)?;
    let outcome = more_names(alloc, &mut of);
    let (of, _) = beside(of, outcome)?;
    Ok(of)
}

fn storage(alloc: Global, name: Name) -> Result<Interface, Memory>
    ensures { IfOk result (λ i. i ≡ spec.storage name) }
{
    let mut of = empty(alloc, name);
    let outcome = storers(alloc, &mut of);
    let (of, _) = beside(of, outcome)?;
    Ok(of)
}

/// All that SYSTEM has.
fn system_names(alloc: Global, of: &mut Interface) -> Result<(), Memory>
    ensures { IfOk result (λ u. of.new ≡ spec.with_procedures (spec.with_system_types of.old) spec.coroutine_procedures) }
{
    show(alloc, of, b"ADDRESS", Thing::Type(ADDRESS))?;
    show(alloc, of, b"PROCESS", Thing::Type(PROCESS))?;
    coroutine_procedures(alloc, of)?;
    Ok(())
}

fn system(alloc: Global, name: Name) -> Result<Interface, Memory>
    ensures { IfOk result (λ i. i ≡ spec.system name) }
{
    let mut of = empty(alloc, name);
    let outcome = system_names(alloc, &mut of);
    let (of, _) = beside(of, outcome)?;
    Ok(of)
}

fn push_responses(alloc: Global, all: &mut Items<Name>) -> Result<(), Memory>
    requires { all.now ≡ [] }
    ensures { IfOk result (λ u. all.new ≡ spec.responses) }
{
    push_name(alloc, all, b"done")?;
    push_name(alloc, all, b"notdone")
}

fn responses(alloc: Global) -> Result<Items<Name>, Memory>
    ensures { IfOk result (λ ns. ns ≡ spec.responses) }
{
    let mut all = Items::new(alloc);
    let outcome = push_responses(alloc, &mut all);
    let (all, _) = beside(all, outcome)?;
    Ok(all)
}

fn file_fields(alloc: Global) -> Result<Fields, Memory>
    ensures { IfOk result (λ fs. fs ≡ spec.file_fields) }
{
    let id = literal(alloc, b"id")?;
    let eof = literal(alloc, b"eof")?;
    let res = literal(alloc, b"res")?;
    let (_, one) = Fields::new(alloc).with(alloc, &id, CARDINAL)?;
    let (_, two) = one.with(alloc, &eof, BOOLEAN)?;
    let (_, three) = two.with(alloc, &res, 16)?;
    Ok(three)
}

fn file_procedures(alloc: Global, of: &mut Interface) -> Result<(), Memory>
    ensures { IfOk result (λ u. of.new ≡ spec.with_procedures of.old spec.file_procedures) }
{
    let characters = Parameter {
        open_array: true,
        ..value(CHAR)
    };
    let looked = [place(17), characters, value(BOOLEAN)];
    let file = [place(17)];
    let read = [place(17), place(CHAR)];
    let written = [place(17), value(CHAR)];
    procedure(alloc, of, b"Lookup", Resident::Lookup, &looked)?;
    procedure(alloc, of, b"Close", Resident::CloseFile, &file)?;
    procedure(alloc, of, b"Reset", Resident::Reset, &file)?;
    procedure(alloc, of, b"ReadChar", Resident::ReadChar, &read)?;
    procedure(alloc, of, b"WriteChar", Resident::WriteChar, &written)?;
    Ok(())
}

fn file_types(alloc: Global, of: &mut Interface) -> Result<(), Memory>
    ensures { IfOk result (λ u. of.new ≡ spec.with_declared (spec.with_enumeration of.old (codes "Response") spec.responses) (codes "File") (form.Record spec.file_fields)) }
{
    let constants = responses(alloc)?;
    enumerate(alloc, of, b"Response", &constants)?;
    let fields = file_fields(alloc)?;
    declare(alloc, of, b"File", TypeForm::Record(fields))
}

/// All that FileSystem has.
fn file_names(alloc: Global, of: &mut Interface) -> Result<(), Memory>
    ensures { IfOk result (λ u. of.new ≡ spec.with_procedures (spec.with_declared (spec.with_enumeration of.old (codes "Response") spec.responses) (codes "File") (form.Record spec.file_fields)) spec.file_procedures) }
{
    file_types(alloc, of)?;
    file_procedures(alloc, of)
}

fn file_system(alloc: Global, name: Name) -> Result<Interface, Memory>
    ensures { IfOk result (λ i. i ≡ spec.file_system name) }
{
    let mut of = empty(alloc, name);
    let outcome = file_names(alloc, &mut of);
    let (of, _) = beside(of, outcome)?;
    Ok(of)
}

fn push_statuses(alloc: Global, all: &mut Items<Name>) -> Result<(), Memory>
    requires { all.now ≡ [] }
    ensures { IfOk result (λ u. all.new ≡ spec.statuses) }
{
    push_name(alloc, all, b"normal")?;
    push_name(alloc, all, b"range")?;
    push_name(alloc, all, b"overflow")?;
    push_name(alloc, all, b"divisor")?;
    push_name(alloc, all, b"nil")?;
    push_name(alloc, all, b"noprocedure")?;
    push_name(alloc, all, b"noprocess")?;
    push_name(alloc, all, b"case")?;
    push_name(alloc, all, b"function")?;
    push_name(alloc, all, b"halted")?;
    push_name(alloc, all, b"workspace")?;
    push_name(alloc, all, b"coroutineend")?;
    push_name(alloc, all, b"missing")?;
    push_name(alloc, all, b"damaged")?;
    push_name(alloc, all, b"keydiffers")?;
    push_name(alloc, all, b"tablefull")?;
    push_name(alloc, all, b"notprogram")
}

fn statuses(alloc: Global) -> Result<Items<Name>, Memory>
    ensures { IfOk result (λ ns. ns ≡ spec.statuses) }
{
    let mut all = Items::new(alloc);
    let outcome = push_statuses(alloc, &mut all);
    let (all, _) = beside(all, outcome)?;
    Ok(all)
}

/// All that Program has.
fn program_names(alloc: Global, of: &mut Interface) -> Result<(), Memory>
    ensures { IfOk result (λ u. of.new ≡ spec.with_procedures (spec.with_enumeration of.old (codes "Status") spec.statuses) spec.program_procedures) }
{
    let constants = statuses(alloc)?;
    enumerate(alloc, of, b"Status", &constants)?;
    let characters = Parameter {
        open_array: true,
        ..value(CHAR)
    };
    let called = [characters, place(16)];
    procedure(alloc, of, b"Call", Resident::Call, &called)
}

fn program(alloc: Global, name: Name) -> Result<Interface, Memory>
    ensures { IfOk result (λ i. i ≡ spec.program name) }
{
    let mut of = empty(alloc, name);
    let outcome = program_names(alloc, &mut of);
    let (of, _) = beside(of, outcome)?;
    Ok(of)
}

fn channel_procedures(alloc: Global, of: &mut Interface) -> Result<(), Memory>
    ensures { IfOk result (λ u. of.new ≡ spec.with_procedures of.old spec.channel_procedures) }
{
    let told = [value(CARDINAL), place(BOOLEAN)];
    let put = [value(CARDINAL), value(CARDINAL), place(BOOLEAN)];
    let taken = [value(CARDINAL), place(CARDINAL), place(BOOLEAN)];
    procedure(alloc, of, b"Open", Resident::OpenChannel, &told)?;
    procedure(alloc, of, b"Put", Resident::PutWord, &put)?;
    procedure(alloc, of, b"Get", Resident::GetWord, &taken)?;
    procedure(alloc, of, b"Close", Resident::CloseChannel, &told)?;
    Ok(())
}

fn channels(alloc: Global, name: Name) -> Result<Interface, Memory>
    ensures { IfOk result (λ i. i ≡ spec.channels name) }
{
    let mut of = empty(alloc, name);
    let outcome = channel_procedures(alloc, &mut of);
    let (of, _) = beside(of, outcome)?;
    Ok(of)
}

fn push_all(alloc: Global, all: &mut Interfaces) -> Result<(), Memory>
    requires { all.now ≡ [] }
    ensures { IfOk result (λ u. all.new ≡ spec.residents) }
{
    all.push(terminal(alloc, literal(alloc, b"Terminal")?)?)?;
    all.push(in_out(alloc, literal(alloc, b"InOut")?)?)?;
    all.push(file_system(alloc, literal(alloc, b"FileSystem")?)?)?;
    all.push(storage(alloc, literal(alloc, b"Storage")?)?)?;
    all.push(program(alloc, literal(alloc, b"Program")?)?)?;
    all.push(channels(alloc, literal(alloc, b"Channels")?)?)?;
    all.push(system(alloc, literal(alloc, b"SYSTEM")?)?)?;
    Ok(())
}

/// The interfaces of all resident modules.
pub fn all_resident(alloc: Global) -> Result<Interfaces, Memory>
    ensures { IfOk result (λ is. is ≡ spec.residents) }
{
    let mut all = Items::new(alloc);
    let outcome = push_all(alloc, &mut all);
    let (all, _) = beside(all, outcome)?;
    Ok(all)
}

/// The first of a name.
fn taken(all: Interfaces, name: &Name) -> Option<Interface>
    ensures { result ≡ spec.named all name.now }
{
    let mut rest = all;
    while let Some(one) = rest.take_first() {
        if same_name(name, &one.name) {
            return Some(one);
        }
    }
    None
}

/// The interface of a resident module, None where no resident module has this name.
#[tactic(auto, unfolding(crate::specs::Interfaces::resident))]
pub fn resident(alloc: Global, name: &Name) -> Result<Option<Interface>, Memory>
    ensures { IfOk result (λ i. i ≡ spec.resident name.now) }
{
    let all = all_resident(alloc)?;
    Ok(taken(all, name))
}
