ghost use Rattle.std.specs.Prelude.{◌≡◌, IfOk};
ghost use Rattle.tg_semantics.specs.Environments.{standards};
ghost use Rattle.tg_typecheck.specs.Scopes as scopes;

use crate::bindings::Signature;
use crate::kinds::Ty;
use std::alloc::Global;
use tg_base::Memory;
use tg_semantics::Standard;

/// The standard function of a name's text.
pub(crate) fn standard_of(text: &str) -> Option<Standard>
    ensures { result ≡ scopes.standard_of text.now standards }
{
    match text {
        "print" => Some(Standard::Print),
        "flush" => Some(Standard::Flush),
        "getchar" => Some(Standard::Getchar),
        "ord" => Some(Standard::Ord),
        "chr" => Some(Standard::Chr),
        "size" => Some(Standard::Size),
        "substring" => Some(Standard::Substring),
        "concat" => Some(Standard::Concat),
        "not" => Some(Standard::Not),
        "exit" => Some(Standard::Exit),
        _ => None,
    }
}

/// The type of a name's text in the outermost scope.
pub(crate) fn standard_type(text: &str) -> Option<Ty>
    ensures { result ≡ scopes.type_of_text text.now }
{
    match text {
        "int" => Some(Ty::int()),
        "string" => Some(Ty::text()),
        _ => None,
    }
}

/// The signature of a standard function.
pub(crate) fn signature_of(alloc: Global, function: Standard) -> Result<Signature, Memory>
    ensures { IfOk result (λ s. s ≡ scopes.signature function) }
{
    let mut params = Vec::new(alloc);
    match function {
        Standard::Flush | Standard::Getchar => {}
        Standard::Print | Standard::Ord | Standard::Size => params.push(Ty::text())?,
        Standard::Chr | Standard::Not | Standard::Exit => params.push(Ty::int())?,
        Standard::Substring => {
            params.push(Ty::text())?;
            params.push(Ty::int())?;
            params.push(Ty::int())?;
        }
        Standard::Concat => {
            params.push(Ty::text())?;
            params.push(Ty::text())?;
        }
    }
    Ok(Signature::new(params, result_of(function)))
}

fn result_of(function: Standard) -> Ty
    ensures { result ≡ (scopes.signature function).result }
{
    match function {
        Standard::Print | Standard::Flush | Standard::Exit => Ty::nothing(),
        Standard::Ord | Standard::Size | Standard::Not => Ty::int(),
        Standard::Getchar | Standard::Chr | Standard::Substring | Standard::Concat => Ty::text(),
    }
}
