ghost use Rattle.std.specs.Prelude.{◌≡◌};
ghost use Rattle.std.specs.Option.{option_copied};
ghost use Rattle.lil_forms.specs.Variables as spec;

use lil_declared::RVar;
use lil_resolved::RNamed;
use lil_scope::{Env, Variable, procedure_out, variable_levels};

/// Which variable one is to the procedure at hand: one of the module, or one of a procedure so many levels out. None where
/// these are no byte.
pub fn named_at(env: &Env, of: Variable) -> Option<RNamed>
    ensures { result ≡ spec.named_at env.now of }
{
    if of.level == 1 {
        return Some(RNamed::Module(of.number));
    }
    let levels = variable_levels(env, of.level);
    if levels < 256 {
        Some(RNamed::Level(levels as u8, of.number))
    } else {
        None
    }
}

/// What is known of a variable that is seen.
pub fn seen(env: &Env, named: RNamed) -> Option<&RVar>
    ensures { option_copied result ≡ spec.seen env.now named }
{
    match named {
        RNamed::Module(number) => env.variables.get(number),
        RNamed::Level(levels, number) => match procedure_out(env, usize::from(levels)) {
            Some(owner) => env.locals.of(owner).get(number),
            None => None,
        },
    }
}
