ghost use Rattle.std.specs.Prelude.{◌≡◌};
ghost use Rattle.lil_operators.specs.Operations as spec;

use lil_base::Place;
use lil_kinds::{Form, Found, Standing};
use lil_scope::Kind;

/// A value of one word and no depth below it, with this form.
pub fn plain_found(first: Place, form: Form, kind: Kind) -> Found
    ensures { result ≡ spec.plain_found first form kind }
{
    Found {
        form,
        kind,
        first,
        depth: 1,
        standing: Standing::Value,
    }
}

/// A constant that begins at this place.
pub fn constant_found(first: Place, kind: Kind) -> Found
    ensures { result ≡ spec.constant_found first kind }
{
    plain_found(first, Form::Nothing, kind)
}
