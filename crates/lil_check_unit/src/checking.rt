ghost use Rattle.std.specs.Prelude.{◌≡◌, IfOk, Err, None, Some};
ghost use Rattle.std.specs.List.{list_any};
ghost use Rattle.lil_base.specs.declared.fault.SourceFault.{SourceFault as Told};
ghost use Rattle.lil_text.specs.declared.stop.ReadStop.TheVariants as stop;
ghost use Rattle.lil_report.specs.{declared.report.Fault.Fault as Found, Least.{now_of, late_of, worse}, Told.{Said, tell}};
ghost use Rattle.lil_check_stmt.specs.Stmts.{bodies_mean};
ghost use Rattle.lil_interfaces.specs.Imports.{nothing_imported};
ghost use Rattle.lil_check_unit.specs.Modules.{in_no_with};
ghost use Rattle.lil_check_unit.specs.Units as spec;

use lil_base::{FaultKind, Items, Memory, SourceFault, beside};
use lil_check_decl::declarations;
use lil_check_stmt::{Stated, bodies};
use lil_format::Wanted;
use lil_interfaces::{Imported, Interfaces, begin, exports, imports};
use lil_language::Unit;
use lil_report::{Fault, Report, worse};
use lil_scope::{Env, Withs};
use lil_text::ReadStop;
use lil_types::{TypeEntry, TypeForm};
use std::alloc::Global;

/// The fault as it is told: its number and place, with no values.
pub fn told(fault: Fault) -> SourceFault
    ensures { result ≡ spec.told fault }
{
    SourceFault::at(fault.kind, fault.place)
}

/// What a unit declares and imports: the modules on which it rests, each once, and how many names of the unit's block are
/// imported. Those stand before the others.
#[derive(Drop)]
pub struct Declared {
    pub env: Env,
    pub rests: Items<Wanted>,
    pub imported: usize,
}

/// All that a unit imports and declares, where nothing is imported yet, and how many names of its block are imported.
fn declare(
    alloc: Global,
    u: &Unit,
    interfaces: &Interfaces,
    so_far: &mut Imported,
    report: &mut Report,
) -> Result<usize, Memory>
    requires { so_far.old ≡ nothing_imported }
    ensures said { IfOk result (λ n. Said (spec.declared interfaces.now u.now) report.old so_far.new.env report.new) }
    ensures rests { IfOk result (λ n. so_far.new.rests ≡ (spec.brought interfaces.now u.now).rests) }
    ensures imported { IfOk result (λ n. n ≡ spec.imported_names interfaces.now u.now) }
{
    imports(alloc, interfaces, so_far, report, u.head.imports.as_slice())?;
    let scopes = &so_far.env.scopes;
    let imported = scopes.blocks.len_of(scopes.inner);
    declarations(alloc, &mut so_far.env, report, &u.decls)?;
    exports(&so_far.taken, &so_far.env, report, &u.head.exports);
    Ok(imported)
}

/// All that a unit imports and declares.
fn declare_all(
    alloc: Global,
    u: &Unit,
    interfaces: &Interfaces,
    report: &mut Report,
) -> Result<Declared, Memory>
    ensures said { IfOk result (λ d. Said (spec.declared interfaces.now u.now) report.old d.env report.new) }
    ensures rests { IfOk result (λ d. d.rests ≡ (spec.brought interfaces.now u.now).rests) }
    ensures imported { IfOk result (λ d. d.imported ≡ spec.imported_names interfaces.now u.now) }
{
    let mut so_far = begin(alloc, None)?;
    let outcome = declare(alloc, u, interfaces, &mut so_far, report);
    let (so_far, imported) = beside(so_far, outcome)?;
    Ok(Declared {
        env: so_far.env,
        rests: so_far.rests,
        imported,
    })
}

fn is_long(form: &TypeForm) -> bool
    ensures { result ≡ spec.is_long form.now }
{
    match form {
        TypeForm::Enumeration(constants) => constants.len() > 65535,
        _ => false,
    }
}

/// Whether one of these types is an enumeration of more than 65,535 constants.
fn has_long(types: &[TypeEntry]) -> bool
    ensures { result ≡ list_any (λ x. spec.is_long x.form) types.now }
{
    types.iter().any(|of| is_long(&of.form))
}

/// The fault of an enumeration that has more than 65,535 constants.
#[tactic(auto, unfolding(lil_report::specs::Told::tell))]
fn constants_fault(u: &Unit, declared: &Env) -> Option<Fault>
    ensures { result ≡ tell None (spec.long_rows u.now declared.now) }
{
    let mut report = Report::new();
    let too_many = has_long(declared.types.as_slice());
    report.note(too_many, u.head.name.place, FaultKind::DataTooLong);
    report.worst()
}

/// The fault of a unit's names and declarations, behind their tests.
fn names_fault(u: &Unit, declared: &Env, report: &Report) -> Option<Fault>
    ensures { result ≡ spec.names_fault u.now declared.now report.now }
{
    match report.worst_now() {
        Some(fault) => Some(fault),
        None => constants_fault(u, declared),
    }
}

/// What a unit without faults of names, declarations and statements declares and states, and its first form that isn't built.
#[derive(Drop)]
pub(crate) struct Checked {
    pub declared: Env,
    pub stated: Stated,
    pub late: Option<Fault>,
}

/// The rest of the check where all that is declared is right: the statements.
fn with_statements(
    alloc: Global,
    u: &Unit,
    declared: Env,
    late: Option<Fault>,
) -> Result<Checked, ReadStop>
    ensures right { IfOk result (λ c. (c.declared ≡ in_no_with declared) × (c.stated ≡ (bodies_mean (in_no_with declared) u.now.decls u.now.body).0)
        × (now_of (tell None (bodies_mean (in_no_with declared) u.now.decls u.now.body).1) ≡ None)
        × (c.late ≡ worse late (late_of (tell None (bodies_mean (in_no_with declared) u.now.decls u.now.body).1)))) }
    ensures wrong { (f : Told) → result ≡ Err (stop.Fault f) → (g : Found) × (now_of (tell None (bodies_mean (in_no_with declared) u.now.decls u.now.body).1) ≡ Some g) × (f ≡ spec.told g) }
{
    let mut env = declared;
    env.withs = Withs::new(alloc);
    let mut report = Report::new();
    let stated = bodies(alloc, &mut env, &mut report, &u.decls, &u.body);
    let (declared, stated) = beside(env, stated)?;
    match report.worst_now() {
        Some(fault) => {
            drop(declared);
            drop(stated);
            Err(ReadStop::Fault(told(fault)))
        }
        None => {
            let late = worse(late, report.worst_late());
            Ok(Checked {
                declared,
                stated,
                late,
            })
        }
    }
}

/// What a unit declares and states, with its first form that isn't built, or its fault of names, declarations and statements. Each
/// module that is imported has an interface.
pub(crate) fn check_parts(
    alloc: Global,
    u: &Unit,
    interfaces: &Interfaces,
) -> Result<Checked, ReadStop>
    requires { spec.HasInterfaces interfaces.now u.now }
    ensures right { IfOk result (λ c. (c.declared ≡ in_no_with (spec.declared interfaces.now u.now).0) × (c.stated ≡ (spec.stated interfaces.now u.now).0)
        × (spec.worst u.now interfaces.now ≡ None) × (c.late ≡ spec.late_fault u.now interfaces.now)) }
    ensures wrong { (f : Told) → result ≡ Err (stop.Fault f) → (g : Found) × (spec.worst u.now interfaces.now ≡ Some g) × (f ≡ spec.told g) }
{
    let mut report = Report::new();
    let parts = declare_all(alloc, u, interfaces, &mut report)?;
    match names_fault(u, &parts.env, &report) {
        Some(fault) => {
            drop(parts);
            Err(ReadStop::Fault(told(fault)))
        }
        None => with_statements(alloc, u, parts.env, report.worst_late()),
    }
}

/// What a unit declares and imports, whatever its statements are, or its fault of names and declarations: that of imported and
/// exported names and of declarations, else an enumeration that is too long (61). Of the first, the one at the least place
/// speaks, and there the one of the least number. A form that isn't built (90) is no fault here. Each module that is imported
/// has an interface.
pub fn check_names(alloc: Global, u: &Unit, interfaces: &Interfaces) -> Result<Declared, ReadStop>
    requires imported { spec.HasInterfaces interfaces.now u.now }
    ensures right { IfOk result (λ d. (d.env ≡ (spec.declared interfaces.now u.now).0) × (d.rests ≡ (spec.brought interfaces.now u.now).rests)
        × (d.imported ≡ spec.imported_names interfaces.now u.now) × (spec.names_worst u.now interfaces.now ≡ None)) }
    ensures wrong { (f : Told) → result ≡ Err (stop.Fault f) → (g : Found) × (spec.names_worst u.now interfaces.now ≡ Some g) × (f ≡ spec.told g) }
    ensures least { spec.Speaks (spec.ClassesOfNames u.now interfaces.now) (spec.names_worst u.now interfaces.now) }
{
    let mut report = Report::new();
    let parts = declare_all(alloc, u, interfaces, &mut report)?;
    match names_fault(u, &parts.env, &report) {
        Some(fault) => {
            drop(parts);
            Err(ReadStop::Fault(told(fault)))
        }
        None => Ok(parts),
    }
}
