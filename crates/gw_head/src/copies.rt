//! Copies of the parts of a head.
ghost use Rattle.std.specs.Prelude.{◌≡◌, ◌∷◌, [], ◌++◌, All, IfOk, length, map};
ghost use Rattle.httparse.specs.Spans.{IsHeaderWithin, header_bytes};
ghost use Rattle.http_header.specs.Token.{IsToken, lowercase};
ghost use Rattle.http_header.specs.FieldName.{IsFieldName};
ghost use Rattle.http_header.specs.FieldValue.{IsFieldValue, plain_value};
ghost use Rattle.gw_head.specs.Copies.{IsCopyable};
ghost use Rattle.gw_head.specs.Target.{query_of, resource_in};
ghost use Rattle.gw_head.specs.Head.{lowered, lowered_fields};

use crate::error::NoMemory;
use crate::target::{Form, query_in};
use gw_fields::Fields;
use gw_wire::Bytes;
use http::Method;
use http::method::MethodError;
use http_header::{HeaderName, HeaderNameError, HeaderValue, HeaderValueError};
use httparse::spans::HeaderSpan;
use std::alloc::{AllocError, Global};

/// A copy of the bytes.
pub(crate) fn copy_bytes(alloc: Global, bytes: &[u8]) -> Result<Bytes, NoMemory>
    ensures { IfOk result (λ copy. copy ≡ bytes.now) }
{
    Ok(Bytes::new(bytes.to_vec(alloc)?))
}

/// A copy of the target's query, if it has one.
pub(crate) fn copy_query(
    alloc: Global,
    form: Form,
    target: &[u8],
) -> Result<Option<Bytes>, NoMemory>
    ensures { IfOk result (λ query. query ≡ query_of (resource_in form target.now)) }
{
    match query_in(form, target) {
        Some(query) => Ok(Some(copy_bytes(alloc, query)?)),
        None => Ok(None),
    }
}

/// The method of that name.
pub(crate) fn copy_method(alloc: Global, name: &[u8]) -> Result<Method, NoMemory>
    requires { IsToken name.now }
    ensures { IfOk result (λ method. method ≡ name.now) }
{
    match Method::from_bytes(alloc, name) {
        Ok(method) => Ok(method),
        Err(MethodError::OutOfMemory) => Err(AllocError),
        Err(MethodError::Invalid) => unreachable!(),
    }
}

/// The fields that the spans cover, their names in lower case.
pub(crate) fn copy_fields(
    alloc: Global,
    bytes: &[u8],
    spans: &[HeaderSpan],
) -> Result<Fields, NoMemory>
    requires within { All (IsHeaderWithin (length bytes.now)) spans.now }
    requires copyable { All (λ span. IsCopyable (header_bytes bytes.now span)) spans.now }
    ensures { IfOk result (λ fields. fields ≡ lowered_fields (map (header_bytes bytes.now) spans.now)) }
{
    let mut fields = Fields::with_capacity(alloc, spans.len())?;
    for span in spans {
        push_field(
            &mut fields,
            alloc,
            span.name.of(bytes),
            span.value.of(bytes),
        )?;
    }
    Ok(fields)
}

// Adds a field with its name in lower case.
fn push_field(fields: &mut Fields, alloc: Global, name: &[u8], value: &[u8]) -> Result<(), NoMemory>
    requires { IsCopyable (name.now, value.now) }
    ensures { IfOk result (λ _. fields.new ≡ fields.old ++ lowered (name.now, value.now) ∷ []) }
{
    let name = copy_name(alloc, name)?;
    let value = copy_value(alloc, value)?;
    fields.push(name, value)
}

// The name in lower case.
fn copy_name(alloc: Global, name: &[u8]) -> Result<HeaderName, NoMemory>
    requires { IsFieldName name.now }
    ensures { IfOk result (λ copy. copy ≡ lowercase name.now) }
{
    match HeaderName::from_bytes(alloc, name) {
        Ok(copy) => Ok(copy),
        Err(HeaderNameError::OutOfMemory) => Err(AllocError),
        Err(HeaderNameError::Invalid) => unreachable!(),
    }
}

fn copy_value(alloc: Global, value: &[u8]) -> Result<HeaderValue, NoMemory>
    requires { IsFieldValue value.now }
    ensures { IfOk result (λ copy. copy ≡ plain_value value.now) }
{
    match HeaderValue::from_bytes(alloc, value) {
        Ok(copy) => Ok(copy),
        Err(HeaderValueError::OutOfMemory) => Err(AllocError),
        Err(HeaderValueError::Invalid) => unreachable!(),
    }
}
