ghost use Rattle.std.specs.Prelude.{◌≡◌, ◌≤◌, ◌∷◌, [], Err, IfOk, None, Some, is_none};
ghost use Rattle.lil_base.specs.declared.fault.SourceFault.{SourceFault as Told};
ghost use Rattle.lil_text.specs.declared.stop.ReadStop.TheVariants as stop;
ghost use Rattle.lil_report.specs.{declared.report.Fault.Fault as Found, Told.tell};
ghost use Rattle.lil_resolved.specs.{Sound.IsSound, Views.{module_of, IsMeasured}};
ghost use Rattle.lil_interfaces.specs.Interfaces.{named, residents};
ghost use Rattle.lil_check_stmt.specs.{Texts.texts, Whole.{extent, text_extent}};
ghost use Rattle.lil_check_unit.specs.{Modules.module_words, Whole.AreKept};
ghost use Rattle.lil_check_unit.specs.Units as spec;

use crate::checking::told;
use crate::modules::check_module;
use lil_base::{FaultKind, Name};
use lil_interfaces::{Interfaces, all_resident, named, same_name, same_text};
use lil_language::{Import, Unit, UnitKind};
use lil_report::{Fault, Report};
use lil_resolved::RModule;
use lil_text::{Ident, ReadStop};
use std::alloc::Global;

fn same_kind(a: UnitKind, b: UnitKind) -> bool
    ensures { result ≡ spec.same_kind a b }
{
    a == b
}

/// Whether this is the name of a resident module, of one that isn't built too.
fn is_reserved(name: &[u8]) -> bool
    ensures { result ≡ spec.is_reserved name.now }
{
    same_text(name, b"Terminal")
        || (same_text(name, b"InOut")
            || (same_text(name, b"FileSystem")
                || (same_text(name, b"Storage")
                    || (same_text(name, b"Program")
                        || (same_text(name, b"Channels") || same_text(name, b"SYSTEM"))))))
}

/// The fault of a unit's kind or name, where its file has this name and has to be of this kind: it is of another kind (80), it
/// has the name of a resident module (76), or another name than its file (77). The one at the least place speaks, and there the
/// one of the least number.
#[tactic(auto, unfolding(lil_report::specs::Told::tell))]
pub fn naming_fault(kind: UnitKind, file: &Name, u: &Unit) -> Option<Fault>
    ensures { result ≡ tell None (spec.naming_rows kind file.now u.now) }
{
    let mut report = Report::new();
    let as_wanted = same_kind(kind, u.head.kind);
    let reserved = is_reserved(u.head.name.name.as_slice());
    let of_file = same_name(&u.head.name.name, file);
    report.note(!as_wanted, u.head.place, FaultKind::UnitKind);
    report.note(reserved, u.head.name.place, FaultKind::ReservedModule);
    report.note(!of_file, u.head.name.place, FaultKind::FileName);
    report.worst()
}

fn is_missing(interfaces: &Interfaces, name: &Name) -> bool
    ensures { result ≡ is_none (named interfaces.now name.now) }
{
    match named(interfaces.as_slice(), name) {
        Some(_) => false,
        None => true,
    }
}

/// Tells fault 90 where the interface of an imported module isn't there.
#[tactic(auto, unfolding(lil_report::specs::Told::tell))]
fn look_for(interfaces: &Interfaces, report: &mut Report, at: &Ident)
    ensures { report.new ≡ tell report.old (spec.missing_row interfaces.now at.now ∷ []) }
{
    let missing = is_missing(interfaces, &at.name);
    report.note(missing, at.place, FaultKind::NotBuilt);
}

fn look_for_all(interfaces: &Interfaces, report: &mut Report, names: &[Ident])
    ensures { report.new ≡ tell report.old (spec.missing_names interfaces.now names.now) }
{
    for at in names {
        look_for(interfaces, report, at);
    }
}

fn look_for_import(interfaces: &Interfaces, report: &mut Report, of: &Import)
    ensures { report.new ≡ tell report.old (spec.missing_by interfaces.now of.now.from of.now.names) }
{
    match &of.from {
        Some(owner) => look_for(interfaces, report, owner),
        None => look_for_all(interfaces, report, of.names.as_slice()),
    }
}

fn look_for_imports(interfaces: &Interfaces, report: &mut Report, of: &[Import])
    ensures { report.new ≡ tell report.old (spec.missing_rows interfaces.now of.now) }
{
    for one in of {
        look_for_import(interfaces, report, one);
    }
}

/// The fault of a unit's imports: the first module whose interface isn't there (90).
pub fn missing_fault(interfaces: &Interfaces, u: &Unit) -> Option<Fault>
    ensures { result ≡ tell None (spec.missing_rows interfaces.now u.now.head.imports) }
{
    let mut report = Report::new();
    look_for_imports(interfaces, &mut report, u.head.imports.as_slice());
    report.worst()
}

/// The module that a program is, or its fault, where its kind and name are right.
fn with_imports(alloc: Global, u: &Unit) -> Result<RModule, ReadStop>
    ensures right { IfOk result (λ m. (Some (module_of m) ≡ spec.module_of u.now residents) × (spec.imports_fault u.now ≡ None)) }
    ensures kept { IfOk result (λ m. text_extent u.now.body ≤ extent m.body) }
    ensures all_kept { IfOk result (λ m. AreKept (texts u.now.decls) m.procedures) }
    ensures sound { IfOk result (λ m. IsSound (module_of m)) }
    ensures measured { IfOk result (λ m. IsMeasured m) }
    ensures fits { IfOk result (λ m. module_words (module_of m) ≤ 32000) }
    ensures wrong { (f : Told) → result ≡ Err (stop.Fault f) → (g : Found) × (spec.imports_fault u.now ≡ Some g) × (f ≡ spec.told g) }
{
    let interfaces = all_resident(alloc)?;
    match missing_fault(&interfaces, u) {
        Some(fault) => Err(ReadStop::Fault(told(fault))),
        None => check_module(alloc, u, &interfaces),
    }
}

/// The module that a program is, in the file of this name, or its fault: the unit's kind or name (80, 76, 77), else an import
/// that isn't there (90), else imported names and declarations, else an enumeration that is too long (61), else statements, else
/// data that are too long (61), else a form that isn't built (90), told where it stands. Of each kind the one at the least place
/// speaks, and there the one of the least number. A program without a fault has a module, which keeps all of its unit: no
/// statement is left out. It is sound, and the words of its shapes and variables are counted.
pub fn check_program(alloc: Global, file: &Name, u: &Unit) -> Result<RModule, ReadStop>
    ensures right { IfOk result (λ m. (Some (module_of m) ≡ spec.module_of u.now residents) × (spec.program_fault file.now u.now ≡ None)) }
    ensures there { spec.program_fault file.now u.now ≡ None → spec.IsThere (spec.module_of u.now residents) }
    ensures kept { IfOk result (λ m. text_extent u.now.body ≤ extent m.body) }
    ensures all_kept { IfOk result (λ m. AreKept (texts u.now.decls) m.procedures) }
    ensures sound { IfOk result (λ m. IsSound (module_of m)) }
    ensures measured { IfOk result (λ m. IsMeasured m) }
    ensures fits { IfOk result (λ m. module_words (module_of m) ≤ 32000) }
    ensures wrong { (f : Told) → result ≡ Err (stop.Fault f) → (g : Found) × (spec.program_fault file.now u.now ≡ Some g) × (f ≡ spec.told g) }
    ensures least { spec.Speaks (spec.ClassesOfProgram file.now u.now) (spec.program_fault file.now u.now) }
{
    match naming_fault(UnitKind::Program, file, u) {
        Some(fault) => Err(ReadStop::Fault(told(fault))),
        None => with_imports(alloc, u),
    }
}
