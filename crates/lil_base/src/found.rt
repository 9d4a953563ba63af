ghost use Rattle.std.specs.Prelude.{◌≡◌, IfOk, IfErr, Ok, Err};

/// What was found, and beside it what is at hand already, which is dropped where nothing was found. A value that has
/// many forms is dropped here once for all its types, and not anew in each caller: that keeps their proofs short.
pub fn beside<T: Drop, U, E>(kept: T, found: Result<U, E>) -> Result<(T, U), E>
    ensures ok { IfOk result (λ both. (both.0 ≡ kept) × (found ≡ Ok both.1)) }
    ensures err { IfErr result (λ e. found ≡ Err e) }
{
    Ok((kept, found?))
}
