//! What an answer is made of.

ghost use Rattle.std.specs.Prelude.{◌≡◌, ◌∷◌, ◌++◌, [], codes, IfOk, OnOk};
ghost use Rattle.http_server.specs.Response.{IsBlank, fields_of};
ghost use Rattle.server_http.specs.Replies.{AddsDate, AddsFields, IsReply, body_of, common_fields, contents_body, date_field, special_fields, type_of};
ghost use Rattle.httpdate.specs.Date.{date_text};

use crate::contents::Contents;
use crate::reply::Reply;
use bytes::Bytes;
use http::{HeaderValue, header};
use http_server::Response;
use httpdate::HttpDate;
use status_figures::health_text;
use status_pages::POLICY;
use std::alloc::{AllocError, Global};

const HTML: &str = "text/html; charset=utf-8";

const CSV: &str = "text/csv; charset=utf-8; header=present";

const METRICS: &str = "text/plain; version=0.0.4; charset=utf-8";

const TEXT: &str = "text/plain; charset=utf-8";

const NO_STORE: &str = "no-store";

const NO_SNIFF: &str = "nosniff";

const METHODS: &str = "GET, HEAD";

/// The value of a field that says that it is that second.
fn date_value(alloc: Global, date: HttpDate) -> Result<HeaderValue, AllocError>
    ensures { IfOk result (λ value. value.bytes ≡ date_text date) }
{
    let text = date.to_bytes();
    match HeaderValue::from_bytes(alloc, &text) {
        Ok(value) => Ok(value),
        Err(_) => Err(AllocError),
    }
}

/// Adds that the answer is given at that second.
fn add_second(alloc: Global, response: &mut Response, date: HttpDate) -> Result<(), AllocError>
    ensures date { OnOk result (fields_of response.new ≡ fields_of response.old ++ date_field date ∷ []) }
    ensures status { response.new.status ≡ response.old.status }
    ensures body { response.new.body ≡ response.old.body }
{
    let value = date_value(alloc, date)?;
    response.add_header(header::DATE, value)
}

/// Adds at which second the answer is given, up to the year 9999.
fn add_date(alloc: Global, response: &mut Response, now: u64) -> Result<(), AllocError>
    ensures date { OnOk result (AddsDate now (fields_of response.old) (fields_of response.new)) }
    ensures status { response.new.status ≡ response.old.status }
    ensures body { response.new.body ≡ response.old.body }
{
    let Ok(date) = HttpDate::from_unix_secs(now) else {
        return Ok(());
    };
    add_second(alloc, response, date)
}

fn no_store() -> HeaderValue
    ensures { result.bytes ≡ codes "no-store" }
{
    HeaderValue::from_static(NO_STORE)
}

fn no_sniff() -> HeaderValue
    ensures { result.bytes ≡ codes "nosniff" }
{
    HeaderValue::from_static(NO_SNIFF)
}

fn methods() -> HeaderValue
    ensures { result.bytes ≡ codes "GET, HEAD" }
{
    HeaderValue::from_static(METHODS)
}

fn type_of(reply: Reply) -> HeaderValue
    ensures { result.bytes ≡ type_of reply }
{
    match reply {
        Reply::Page => HeaderValue::from_static(HTML),
        Reply::Boards | Reply::Bscs => HeaderValue::from_static(CSV),
        Reply::Metrics => HeaderValue::from_static(METRICS),
        _ => HeaderValue::from_static(TEXT),
    }
}

/// Adds that the answer isn't to be kept, and what its body is.
fn add_common(response: &mut Response, reply: Reply) -> Result<(), AllocError>
    ensures fields { OnOk result (fields_of response.new ≡ fields_of response.old ++ common_fields reply) }
    ensures status { response.new.status ≡ response.old.status }
    ensures body { response.new.body ≡ response.old.body }
{
    response.add_header(header::CACHE_CONTROL, no_store())?;
    response.add_header(header::X_CONTENT_TYPE_OPTIONS, no_sniff())?;
    response.add_header(header::CONTENT_TYPE, type_of(reply))
}

/// Adds what the page may do, or which methods there are.
fn add_special(response: &mut Response, reply: Reply) -> Result<(), AllocError>
    ensures fields { OnOk result (fields_of response.new ≡ fields_of response.old ++ special_fields reply) }
    ensures status { response.new.status ≡ response.old.status }
    ensures body { response.new.body ≡ response.old.body }
{
    match reply {
        Reply::Page => response.add_header(
            header::CONTENT_SECURITY_POLICY,
            HeaderValue::from_static(POLICY),
        ),
        Reply::NotAllowed => response.add_header(header::ALLOW, methods()),
        _ => Ok(()),
    }
}

/// Adds the fields of the answer, given at that second.
fn add_fields(
    alloc: Global,
    response: &mut Response,
    second: u64,
    reply: Reply,
) -> Result<(), AllocError>
    ensures fields { OnOk result (AddsFields second reply (fields_of response.old) (fields_of response.new)) }
    ensures status { response.new.status ≡ response.old.status }
    ensures body { response.new.body ≡ response.old.body }
{
    add_date(alloc, response, second)?;
    add_common(response, reply)?;
    add_special(response, reply)
}

/// Adds the body.
fn add_body(response: &mut Response, body: Bytes) -> Result<(), AllocError>
    ensures body { OnOk result (response.new.body.items ≡ response.old.body.items ++ body) }
    ensures status { response.new.status ≡ response.old.status }
    ensures fields { fields_of response.new ≡ fields_of response.old }
{
    response.body.push(body)
}

/// Makes a blank response this answer, given at that second.
pub(crate) fn fill(
    alloc: Global,
    response: &mut Response,
    second: u64,
    contents: &Option<Contents>,
    reply: Reply,
) -> Result<(), AllocError>
    requires { IsBlank response.old }
    ensures { OnOk result (IsReply second contents.now reply response.new) }
{
    response.status = reply.status();
    add_fields(alloc, response, second, reply)?;
    let body = body_of(contents, reply)?;
    add_body(response, body)
}

/// The body of an answer that shows the picture.
fn contents_body(contents: &Contents, reply: Reply) -> Result<Bytes, AllocError>
    ensures { IfOk result (λ body. body ≡ contents_body contents.now reply) }
{
    match reply {
        Reply::Page => contents.page.clone(),
        Reply::Boards => contents.boards.clone(),
        Reply::Bscs => contents.bscs.clone(),
        Reply::Metrics => contents.metrics.clone(),
        Reply::Whole | Reply::NotWhole => Ok(Bytes::from_static(health_text(
            contents.health,
        ).as_bytes())),
        Reply::NoNewPicture => Ok(Bytes::from_static(b"no new picture\n")),
        Reply::NoPicture => Ok(Bytes::from_static(b"no picture\n")),
        Reply::NotFound => Ok(Bytes::from_static(b"not found\n")),
        Reply::NotAllowed => Ok(Bytes::from_static(b"method not allowed\n")),
    }
}

/// The body of an answer.
fn body_of(contents: &Option<Contents>, reply: Reply) -> Result<Bytes, AllocError>
    ensures { IfOk result (λ body. body ≡ body_of contents.now reply) }
{
    match contents {
        Some(contents) => contents_body(contents, reply),
        None => match reply {
            Reply::NotFound => Ok(Bytes::from_static(b"not found\n")),
            Reply::NotAllowed => Ok(Bytes::from_static(b"method not allowed\n")),
            _ => Ok(Bytes::from_static(b"no picture\n")),
        },
    }
}
