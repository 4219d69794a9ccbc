//! The methods that a path allows.
ghost use Rattle.std.specs.Prelude.{◌<◌, [], ◌∷◌, All, IfOk, OnOk, length};
ghost use Rattle.gw_mux.specs.Allow.{AreAllowed, AreNamed, HasGained, named_methods};

use crate::error::NoMemory;
use gw_pattern::Pattern;
use http::Method;
use std::alloc::Global;

/// The methods of the patterns of these numbers, which are those that serve a path: each once, sorted by its bytes,
/// with HEAD beside GET. The error is want of memory.
pub(crate) fn allowed(
    alloc: Global,
    patterns: &[Pattern],
    served: &[u32],
) -> Result<Vec<Method>, NoMemory>
    requires { All (λ i. i < length patterns.now) served.now }
    ensures { IfOk result (λ methods. AreAllowed patterns.now served.now methods.items) }
{
    let mut methods = methods_of(alloc, patterns, served)?;
    methods.sort_unstable();
    methods.dedup();
    Ok(methods)
}

// The methods in the order of the numbers.
fn methods_of(alloc: Global, patterns: &[Pattern], served: &[u32]) -> Result<Vec<Method>, NoMemory>
    requires { All (λ i. i < length patterns.now) served.now }
    ensures { IfOk result (λ methods. AreNamed patterns.now served.now (length served.now) methods.items) }
{
    let mut methods = Vec::new(alloc);
    for i in served {
        add_method(&mut methods, &patterns[*i as usize].method)?;
    }
    Ok(methods)
}

// Adds the method, and HEAD behind GET.
fn add_method(methods: &mut Vec<Method>, method: &Option<Method>) -> Result<(), NoMemory>
    ensures { OnOk result (HasGained methods.old.items (named_methods method.now) methods.new.items) }
{
    let Some(method) = method else {
        return Ok(());
    };
    add_once(methods, method)?;
    if method.as_str().as_bytes() == b"GET".as_slice() {
        add_once(methods, &Method::HEAD)?;
    }
    Ok(())
}

// Adds the method, if it isn't there.
fn add_once(methods: &mut Vec<Method>, method: &Method) -> Result<(), NoMemory>
    ensures { OnOk result (HasGained methods.old.items (method.now ∷ []) methods.new.items) }
{
    if !methods.contains(method) {
        methods.push(method.clone()?)?;
    }
    Ok(())
}
