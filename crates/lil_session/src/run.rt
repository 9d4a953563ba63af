ghost use Rattle.std.specs.Prelude.{◌≡◌, ◌≢◌, ◌⊎◌, ◌<◌, ◌≤◌, [], ◌∷◌, true, length, map, List, IfOk, OnErr, Ok, Some, None};
ghost use Rattle.lil_resolved.specs.declared.shapes.RShape.{RShape};
ghost use Rattle.lil_resolved.specs.{Views.{module_of, procedure_of}, Sizes.{IsSmall, code_size, module_strings}, Kinds.all_words};
ghost use Rattle.lil_meaning.specs.World.{World};
ghost use Rattle.lil_mcode.specs.Table.{Module, State, mstep};
ghost use Rattle.lil_volume.specs.Causes.{HasCause};
ghost use Rattle.lil_base.specs.declared.fault.TrapKind.{TrapKind};
ghost use Rattle.lil_session.specs.declared.run.Ending.TheVariants as ending;
ghost use Rattle.lil_table.specs.Rows.{Translates};
ghost use Rattle.lil_session.specs.{Running.{finish_of, finish_by, IsStep, IsRefused, HasRun, IsCut}, Outcome.{cuts, settled, Blames, MeansAnswer, IsRunAnswer}, Headline.Shows, Loaded.{IsIn, IsTrapOf, EndingAnswers, IsPossible}};
ghost use Rattle.std.specs.{List.All, Option.option_copied};
ghost use Rattle.lil_laws.specs.Loading.{loaded, named_entries};

use crate::Status;
use lil_base::{LimitKind, Memory, Name, TrapAt, TrapKind};
use lil_kernel::serve;
use lil_mcode::{Event, Machine};
use lil_resolved::{RModule, RProcedure};
use lil_unit::ModuleCode;
use lil_volume::{Sink, SinkFailed};
use std::alloc::Global;

/// How a run of the machine ended.
#[derive(Clone, Copy, PartialEq, Eq)]
pub(crate) enum Ending {
    Done,
    Trapped(TrapKind),
    Limited(LimitKind),
    Broken,
    Spent,
}

/// What the last step of a run shows. None where the run goes on.
fn answered<S: Sink>(
    event: Event,
    machine: &mut Machine,
    screen: &mut S,
) -> Result<Option<Ending>, SinkFailed>
    requires { (u : State) × (mstep u ≡ (event, machine.old.state)) }
    ensures step { IfOk result (λ o. (u : State) → mstep u ≡ (event, machine.old.state) → (w : World) → IsStep u machine.new.state (finish_by o) (S.written screen.old) (S.written screen.new) w) }
    ensures refused { OnErr result ((u : State) → mstep u ≡ (event, machine.old.state) → IsRefused u (S.written screen.old) (S.written screen.new)) }
    ensures unspent { IfOk result (λ o. o ≢ Some ending.Spent) }
    ensures at { (k : TrapKind) → result ≡ Ok (Some (ending.Trapped k)) → (event ≡ Event.Trap k) × (machine.new ≡ machine.old) }
    ensures cause { HasCause (S.faults screen.old) (S.faults screen.new) result }
{
    match event {
        Event::Went => Ok(None),
        Event::Request(request) => {
            serve(request, machine, screen)?;
            Ok(None)
        }
        Event::LevelEnded => Ok(Some(Ending::Done)),
        Event::Trap(kind) => Ok(Some(Ending::Trapped(kind))),
        Event::Limit(kind) => Ok(Some(Ending::Limited(kind))),
        Event::BadCode => Ok(Some(Ending::Broken)),
    }
}

/// Steps until the run ends, for at most so many steps.
fn run_machine<S: Sink>(
    machine: &mut Machine,
    steps: u64,
    screen: &mut S,
) -> Result<Ending, SinkFailed>
    ensures ran { IfOk result (λ e. (w : World) → w.screen ≡ [] → HasRun machine.old.state machine.new.state steps (finish_of e) (S.written screen.old) (S.written screen.new) w) }
    ensures cut { OnErr result ((w : World) → w.screen ≡ [] → IsCut machine.old.state steps (S.written screen.old) (S.written screen.new) w) }
    ensures at { IfOk result (λ e. (k : TrapKind) → e ≡ ending.Trapped k → (machine.new.at_module ≡ machine.new.state.running) × (machine.new.at_place ≡ machine.new.state.place)) }
    ensures cause { HasCause (S.faults screen.old) (S.faults screen.new) result }
{
    let mut left = steps;
    while left > 0 {
        let (event, done) = machine.run(left);
        left -= done;
        if let Some(end) = answered(event, machine, screen)? {
            return Ok(end);
        }
    }
    Ok(Ending::Spent)
}

/// The table of a module's procedures: its body, which has no name and begins the code, and behind it each procedure with
/// its entry and its name.
fn procedures(
    alloc: Global,
    of: &[RProcedure],
    entries: &[u16],
) -> Result<Vec<(u16, Option<Name>)>, Memory>
    requires { length entries.now ≡ length of.now }
    ensures { IfOk result (λ table. (shapes : List RShape) → table.items ≡ (0, None) ∷ named_entries (map (procedure_of shapes) of.now) entries.now) }
{
    let mut table = Vec::new(alloc);
    table.push((0, None))?;
    for (number, procedure) in of.iter().enumerate() {
        table.push((entries[number], Some(procedure.heading.name.copy(alloc)?)))?;
    }
    Ok(table)
}

/// A machine in which the module is loaded alone, with its strings behind its variables, and begun.
fn load(alloc: Global, m: &RModule, made: &ModuleCode) -> Result<Machine, Memory>
    requires small { IsSmall (module_of m.now) made.now.strings.items }
    requires counted { m.now.words ≡ all_words (module_of m.now).variables }
    requires long { length made.now.code ≡ code_size (module_of m.now) }
    requires few { length m.now.procedures ≤ 250 }
    requires many { length made.now.entries ≡ length m.now.procedures }
    requires entries { All (λ e. e < length made.now.code) made.now.entries }
    ensures { IfOk result (λ machine. machine ≡ loaded (module_of m.now) made.now.strings.items made.now.entries made.now.code) }
{
    let mut machine = Machine::new(alloc)?;
    let name = m.name.copy(alloc)?;
    let table = procedures(alloc, m.procedures.as_slice(), made.entries.as_slice())?;
    let mut bodies = Vec::new(alloc);
    bodies.push(1)?;
    machine.open_level();
    let strings = made.strings.as_slice();
    machine.add_module(name, table, &made.code, m.words + strings.len() as u16);
    machine.set_words(1 + m.words, strings);
    machine.begin(bodies);
    Ok(machine)
}

fn copied(alloc: Global, name: Option<&Name>) -> Result<Option<Name>, Memory>
    ensures { IfOk result (λ copy. copy ≡ option_copied name.entry) }
{
    match name {
        None => Ok(None),
        Some(name) => Ok(Some(name.copy(alloc)?)),
    }
}

/// The trap of the procedure that the machine runs.
fn trap_of(alloc: Global, machine: &Machine, kind: TrapKind) -> Result<TrapAt, Memory>
    requires { (m : Module) × IsIn machine.now m }
    ensures { IfOk result (λ t. IsTrapOf machine.now kind t) }
{
    match machine.names(machine.place()) {
        None => unreachable!(),
        Some((module, procedure)) => Ok(TrapAt {
            kind,
            module: module.copy(alloc)?,
            procedure: copied(alloc, procedure)?,
        }),
    }
}

fn answer(alloc: Global, machine: &Machine, end: Ending) -> Status
    requires { IsPossible machine.now end }
    ensures { EndingAnswers machine.now end result }
{
    match end {
        Ending::Done => Status::Done,
        Ending::Trapped(kind) => match trap_of(alloc, machine, kind) {
            Ok(trap) => Status::Trapped(trap),
            Err(_) => Status::Memory,
        },
        Ending::Limited(kind) => Status::Limit(kind),
        Ending::Broken => unreachable!(),
        Ending::Spent => Status::StepsSpent,
    }
}

/// Runs the code of a program module, whose strings lie behind its variables, from its beginning, for at most so many
/// steps.
pub(crate) fn run_program<S: Sink>(
    alloc: Global,
    m: &RModule,
    made: &ModuleCode,
    steps: u64,
    screen: &mut S,
) -> Status
    requires strings { made.now.strings.items ≡ module_strings (module_of m.now) }
    requires translates { Translates (module_of m.now) (module_strings (module_of m.now)) made.now.entries made.now.code }
    requires small { IsSmall (module_of m.now) (module_strings (module_of m.now)) }
    requires counted { m.now.words ≡ all_words (module_of m.now).variables }
    requires few { length m.now.procedures ≤ 250 }
    requires long { length made.now.code ≡ code_size (module_of m.now) }
    ensures shows { (w : World) → w.screen ≡ [] → Shows (module_of m.now) w steps (S.written screen.old) (S.written screen.new) result }
    ensures answer { (w : World) → w.screen ≡ [] → settled result ≡ true → (cuts result ≡ true) ⊎ MeansAnswer (module_of m.now) w result }
    ensures kinds { IsRunAnswer result }
    ensures cause { Blames Status.ScreenFault (S.faults screen.old) (S.faults screen.new) result }
    ensures told { (result ≡ Status.ScreenFault) ⊎ (S.faults screen.new ≡ S.faults screen.old) }
{
    let Ok(mut machine) = load(alloc, m, made) else {
        return Status::Memory;
    };
    match run_machine(&mut machine, steps, screen) {
        Err(_) => Status::ScreenFault,
        Ok(end) => answer(alloc, &machine, end),
    }
}
