ghost use Rattle.std.specs.Prelude.{◌≡◌, IfOk, IfErr};
ghost use Rattle.std.specs.declared.result.Result.TheVariants.{Ok, Err};

/// A value along with what may have failed: both, or the failure, for which the value is let go.
///
/// A function that holds a tree at a `?` is checked with that tree's drop written out there, which
/// takes seconds each time. A tree that is handed in here is let go by a call, as a vector is.
#[inline(always)]
pub fn keep_with<T: Drop, U, E>(held: T, made: Result<U, E>) -> Result<(T, U), E>
    ensures ok { IfOk result (λ x. (x.0 ≡ held) × (made ≡ Ok x.1)) }
    ensures err { IfErr result (λ e. made ≡ Err e) }
{
    match made {
        Ok(one) => Ok((held, one)),
        Err(fault) => Err(fault),
    }
}
