//! The members of an object, by their kinds and ranges.
ghost use Rattle.std.specs.Prelude.{◌≡◌};
ghost use Rattle.serde_json.specs.View.{view, items_view};
ghost use Rattle.gw_routes.specs.Kinds.{Gives, flag_of, flag_said, in_range, json_said, list_said, number_of, number_said, required, text_said};

use crate::fault::{GCode, RouteError};
use serde_json::{Category, Value};
use std::alloc::Global;

/// The range of a number, both ends in it, and what stands for it where it is missing.
#[derive(Clone, Copy)]
pub(crate) struct Bounds {
    pub(crate) least: u32,
    pub(crate) most: u32,
    pub(crate) default: u32,
}

/// The JSON value of a file.
#[tactic(auto, unfolding(crate::specs::Kinds::json_said))]
pub(crate) fn read_value(alloc: Global, bytes: &[u8]) -> Result<Value, RouteError>
    ensures { Gives view result (json_said bytes.now) }
{
    match Value::from_slice(alloc, bytes) {
        Ok(value) => Ok(value),
        Err(error) => match error.classify() {
            Category::Memory => Err(RouteError::NoMemory),
            _ => Err(RouteError::bad(GCode::NotJson, None)),
        },
    }
}

#[tactic(auto, unfolding(crate::specs::Kinds::required))]
fn required<'a>(value: &'a Value, name: &str, route: Option<u32>) -> Result<&'a Value, RouteError>
    ensures { Gives (λ found. view found.now) result (required name.now route (view value.now)) }
{
    match value.get(name) {
        Some(found) => Ok(found),
        None => Err(RouteError::bad(GCode::Missing, route)),
    }
}

/// The text of that name.
#[tactic(auto, unfolding(crate::specs::Kinds::text_said))]
pub(crate) fn text_at<'a>(
    value: &'a Value,
    name: &str,
    route: Option<u32>,
) -> Result<&'a str, RouteError>
    ensures { Gives (λ text. text.now) result (text_said name.now route (view value.now)) }
{
    let found = required(value, name, route)?;
    match found.as_str() {
        Some(text) => Ok(text),
        None => Err(RouteError::bad(GCode::WrongKind, route)),
    }
}

/// The list of that name.
#[tactic(auto, unfolding(crate::specs::Kinds::list_said))]
pub(crate) fn list_at<'a>(
    value: &'a Value,
    name: &str,
    route: Option<u32>,
) -> Result<&'a [Value], RouteError>
    ensures { Gives (λ items. items_view items.now) result (list_said name.now route (view value.now)) }
{
    let found = required(value, name, route)?;
    match found.as_array() {
        Some(items) => Ok(items.as_slice()),
        None => Err(RouteError::bad(GCode::WrongKind, route)),
    }
}

/// The number of that name, which may be missing.
#[tactic(auto, unfolding(crate::specs::Kinds::number_said, crate::specs::Kinds::number_of))]
pub(crate) fn number_at(
    value: &Value,
    name: &str,
    bounds: Bounds,
    route: Option<u32>,
) -> Result<u32, RouteError>
    ensures { Gives (λ n. n) result (number_said name.now bounds route (view value.now)) }
{
    let Some(found) = value.get(name) else {
        return Ok(bounds.default);
    };
    match found.as_u64() {
        Some(n) => in_range(n, bounds, route),
        None => Err(RouteError::bad(GCode::WrongKind, route)),
    }
}

#[tactic(auto, unfolding(crate::specs::Kinds::in_range))]
fn in_range(n: u64, bounds: Bounds, route: Option<u32>) -> Result<u32, RouteError>
    ensures { Gives (λ n. n) result (in_range bounds.least bounds.most route n) }
{
    if n < bounds.least as u64 {
        return Err(RouteError::bad(GCode::OutOfRange, route));
    }
    if n > bounds.most as u64 {
        return Err(RouteError::bad(GCode::OutOfRange, route));
    }
    Ok(n as u32)
}

/// What is true or false under that name, which may be missing.
#[tactic(auto, unfolding(crate::specs::Kinds::flag_said, crate::specs::Kinds::flag_of))]
pub(crate) fn flag_at(
    value: &Value,
    name: &str,
    default: bool,
    route: Option<u32>,
) -> Result<bool, RouteError>
    ensures { Gives (λ flag. flag) result (flag_said name.now default route (view value.now)) }
{
    let Some(found) = value.get(name) else {
        return Ok(default);
    };
    match found.as_bool() {
        Some(flag) => Ok(flag),
        None => Err(RouteError::bad(GCode::WrongKind, route)),
    }
}
