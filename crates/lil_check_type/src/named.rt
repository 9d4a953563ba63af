use lil_types::TypeId;

/// The type of a name that may be left out: it is, or it has a type, or a fault.
#[derive(Clone, Copy)]
pub enum NamedType {
    Absent,
    Given(TypeId),
    Faulty,
}
