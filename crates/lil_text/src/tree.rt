use lil_base::{Name, Place};

/// A name where it stands.
#[derive(Drop)]
pub struct Ident {
    pub place: Place,
    pub name: Name,
}

/// A name, with its module's name before it where one stands there.
#[derive(Drop)]
pub struct Qualident {
    pub owner: Option<Ident>,
    pub name: Ident,
}
