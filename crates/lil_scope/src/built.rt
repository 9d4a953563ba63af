ghost use Rattle.std.specs.Prelude.{◌≡◌};
ghost use Rattle.lil_scope.specs.Built as spec;

use crate::thing::Thing;
use lil_declared::Resident;
use lil_types::PROCESS;

fn is_resident_built(resident: Resident) -> bool
    ensures { result ≡ spec.resident_built resident }
{
    match resident {
        Resident::Write
        | Resident::WriteString
        | Resident::WriteLn
        | Resident::WriteCard
        | Resident::WriteInt
        | Resident::WriteOct
        | Resident::WriteHex
        | Resident::Allocate
        | Resident::Deallocate => true,
        Resident::Read
        | Resident::NewProcess
        | Resident::Transfer
        | Resident::Lookup
        | Resident::CloseFile
        | Resident::Reset
        | Resident::ReadChar
        | Resident::WriteChar
        | Resident::Call
        | Resident::OpenChannel
        | Resident::PutWord
        | Resident::GetWord
        | Resident::CloseChannel => false,
    }
}

/// Whether programs that use the name of this thing may run. PROCESS isn't built, nor are variables and procedures of modules
/// that aren't resident.
pub fn is_built(thing: Thing) -> bool
    ensures { result ≡ spec.built thing }
{
    match thing {
        Thing::Type(sort) => sort != PROCESS,
        Thing::Resident(resident, _) => is_resident_built(resident),
        Thing::ExternalVariable(_) | Thing::ExternalProcedure(_) => false,
        _ => true,
    }
}
