ghost use Rattle.std.specs.Prelude.{◌≡◌, IfOk, OnOk};
ghost use Rattle.std.specs.List.{list_any};
ghost use Rattle.tg_explain_types.specs.Scopes as scopes;

use crate::declarations::{Declaration, Part, Sort};
use std::alloc::Global;
use tg_base::Memory;

/// The declarations that can be seen at a byte of a program of these parts, the innermost first.
/// The time is that of comparing each with each. The only error is out of memory.
pub fn seen_at(alloc: Global, parts: &[Part], at: u32) -> Result<Vec<Declaration>, Memory>
    ensures { IfOk result (λ seen. seen.items ≡ scopes.seen_at at parts.now) }
{
    let mut seen = Vec::new(alloc);
    let mut count = parts.len();
    while count > 0 {
        count -= 1;
        if let Part::Declared(declaration) = parts[count] {
            put_outer(&mut seen, at, declaration)?;
        }
    }
    Ok(seen)
}

fn put_outer(seen: &mut Vec<Declaration>, at: u32, outer: Declaration) -> Result<(), Memory>
    ensures { OnOk result (seen.new.items ≡ scopes.with_outer at outer seen.old.items) }
{
    if covers(outer, at) && !is_hidden(seen, outer) {
        seen.push(outer)?;
    }
    Ok(())
}

fn covers(declaration: Declaration, at: u32) -> bool
    ensures { result ≡ scopes.covers declaration at }
{
    declaration.seen.from <= at && at < declaration.seen.to
}

fn is_hidden(seen: &[Declaration], outer: Declaration) -> bool
    ensures { result ≡ list_any (λ i. scopes.hides i outer) seen.now }
{
    seen.iter().any(|inner| hides(*inner, outer))
}

fn hides(inner: Declaration, outer: Declaration) -> bool
    ensures { result ≡ scopes.hides inner outer }
{
    inner.ident.name.0 == outer.ident.name.0 && share_space(inner.sort, outer.sort)
}

fn share_space(one: Sort, other: Sort) -> bool
    ensures { result ≡ scopes.share_space one other }
{
    match one {
        Sort::TypeName => is_type(other),
        _ => !is_type(other),
    }
}

fn is_type(sort: Sort) -> bool
    ensures { result ≡ scopes.is_type sort }
{
    matches!(sort, Sort::TypeName)
}
