// Lists of methods.

ghost use Rattle.std.specs.Prelude.{◌≡◌, ◌++◌, IfOk};
ghost use Rattle.gw_top.specs.Methods.{listed};

use http::Method;
use std::alloc::AllocError;

/// Writes the methods behind a text, with `, ` between them.
pub(crate) fn list_methods(text: &mut Vec<u8>, methods: &[Method]) -> Result<(), AllocError>
    ensures { IfOk result (λ _. text.new.items ≡ text.old.items ++ listed methods.now) }
{
    let [first, rest @ ..] = methods else {
        return Ok(());
    };
    text.extend_from_slice(first.as_str().as_bytes())?;
    for method in rest {
        text.extend_from_slice(b", ")?;
        text.extend_from_slice(method.as_str().as_bytes())?;
    }
    Ok(())
}
