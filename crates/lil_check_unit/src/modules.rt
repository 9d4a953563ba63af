ghost use Rattle.std.specs.Prelude.{◌≡◌, ◌≤◌, Err, IfOk, None, Some, map, nat_lt};
ghost use Rattle.lil_base.specs.declared.fault.SourceFault.{SourceFault as Told};
ghost use Rattle.lil_text.specs.declared.stop.ReadStop.TheVariants as stop;
ghost use Rattle.lil_report.specs.{declared.report.Fault.Fault as Found, Told.tell};
ghost use Rattle.lil_layout.specs.Data.{data_words};
ghost use Rattle.lil_interfaces.specs.Interfaces.{residents};
ghost use Rattle.lil_resolved.specs.{Sound.IsSound, Views.{module_of, IsMeasured}};
ghost use Rattle.lil_check_stmt.specs.{Texts.texts, Whole.{extent, text_extent}};
ghost use Rattle.lil_check_unit.specs.{Modules.{assembled, module_words}, Whole.{AreKept, body_of}};
ghost use Rattle.lil_check_unit.specs.Units as spec;

use crate::assembling::assembled;
use crate::checking::{Checked, check_parts, told};
use lil_base::FaultKind;
use lil_interfaces::Interfaces;
use lil_language::Unit;
use lil_layout::data_words;
use lil_report::{Fault, Report};
use lil_resolved::RModule;
use lil_text::ReadStop;
use std::alloc::Global;

/// Whether the data of a module have more than 32,000 words.
fn is_too_long(of: &Checked) -> bool
    ensures { result ≡ nat_lt 32000 (data_words of.now.declared.types of.now.declared.variables of.now.stated.procedures of.now.stated.body) }
{
    let words = data_words(
        &of.declared.types,
        of.declared.variables.as_slice(),
        of.stated.procedures.as_slice(),
        &of.stated.body,
    );
    words > 32000
}

/// The fault of a module's data, where they are too long.
#[tactic(auto, unfolding(lil_report::specs::Told::tell))]
fn long_fault(u: &Unit, of: &Checked) -> Option<Fault>
    ensures { result ≡ tell None (spec.data_rows u.now of.now.declared of.now.stated) }
{
    let mut report = Report::new();
    let too_long = is_too_long(of);
    report.note(too_long, u.head.name.place, FaultKind::DataTooLong);
    report.worst()
}

/// The fault of a module's data, else the first form that isn't built.
fn data_fault(u: &Unit, of: &Checked) -> Option<Fault>
    ensures { result ≡ spec.data_fault u.now of.now.declared of.now.stated of.now.late }
{
    match long_fault(u, of) {
        Some(fault) => Some(fault),
        None => of.late,
    }
}

/// The module of what a unit without faults declares and states, unless its data are too long or it has a form that isn't built.
fn with_data(alloc: Global, u: &Unit, of: Checked) -> Result<RModule, ReadStop>
    requires { spec.data_fault u.now of.declared of.stated of.late ≡ None → spec.IsThere (assembled of.declared u.now.head.name.name of.stated) }
    ensures right { IfOk result (λ m. (Some (module_of m) ≡ assembled of.declared u.now.head.name.name of.stated) × (spec.data_fault u.now of.declared of.stated of.late ≡ None)) }
    ensures body { IfOk result (λ m. of.stated.body ≡ Some m.body) }
    ensures bodies { IfOk result (λ m. map body_of m.procedures ≡ of.stated.procedures) }
    ensures measured { IfOk result (λ m. IsMeasured m) }
    ensures fits { IfOk result (λ m. module_words (module_of m) ≤ 32000) }
    ensures wrong { (f : Told) → result ≡ Err (stop.Fault f) → (g : Found) × (spec.data_fault u.now of.declared of.stated of.late ≡ Some g) × (f ≡ spec.told g) }
{
    match data_fault(u, &of) {
        Some(fault) => Err(ReadStop::Fault(told(fault))),
        None => {
            let Checked {
                declared,
                stated,
                late: _,
            } = of;
            Ok(assembled(alloc, &u.head.name.name, &declared, stated)?)
        }
    }
}

/// The module that a unit is, or its fault. The faults of imported and exported names and of declarations speak before an
/// enumeration that is too long (61), that before statements, these before data that are too long (61), and those before a form
/// that isn't built (90), told where it stands. Of each kind the one at the least place speaks, and there the one of the least
/// number. A unit without a fault has a module, which keeps all of it. The interfaces are those of the resident modules, and each
/// module that is imported has one.
pub fn check_module(alloc: Global, u: &Unit, interfaces: &Interfaces) -> Result<RModule, ReadStop>
    requires residents { interfaces.now ≡ residents }
    requires imported { spec.HasInterfaces interfaces.now u.now }
    ensures there { spec.unit_fault u.now interfaces.now ≡ None → spec.IsThere (spec.module_of u.now interfaces.now) }
    ensures right { IfOk result (λ m. (Some (module_of m) ≡ spec.module_of u.now interfaces.now) × (spec.unit_fault u.now interfaces.now ≡ None)) }
    ensures kept { IfOk result (λ m. text_extent u.now.body ≤ extent m.body) }
    ensures all_kept { IfOk result (λ m. AreKept (texts u.now.decls) m.procedures) }
    ensures sound { IfOk result (λ m. IsSound (module_of m)) }
    ensures measured { IfOk result (λ m. IsMeasured m) }
    ensures fits { IfOk result (λ m. module_words (module_of m) ≤ 32000) }
    ensures wrong { (f : Told) → result ≡ Err (stop.Fault f) → (g : Found) × (spec.unit_fault u.now interfaces.now ≡ Some g) × (f ≡ spec.told g) }
    ensures least { spec.Speaks (spec.ClassesOfUnit u.now interfaces.now) (spec.unit_fault u.now interfaces.now) }
{
    match check_parts(alloc, u, interfaces) {
        Ok(checked) => with_data(alloc, u, checked),
        Err(stop) => Err(stop),
    }
}
