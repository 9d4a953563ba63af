ghost use Rattle.std.specs.Prelude.{◌≡◌, ◌≤◌};
ghost use Rattle.lil_operators.specs.Operations as spec;

/// A depth, if an expression may have it.
fn limited(depth: usize) -> Option<usize>
    ensures { result ≡ spec.limited depth }
{
    if depth > 12 { None } else { Some(depth) }
}

/// The depth of a node whose left part has the depth `left`, and whose right part is raised by some words.
pub fn raised(left: usize, by: usize, right: usize) -> Option<usize>
    requires { by ≤ 2 }
    ensures { result ≡ spec.raised left by right }
{
    if right > 12 {
        return None;
    }
    let right = by + right;
    limited(if left < right { right } else { left })
}
