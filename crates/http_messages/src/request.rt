//! From a request to what it asks a site for.
ghost use Rattle.std.specs.Prelude.{◌≡◌, option_map, option_copied};
ghost use Rattle.http.specs.Request.{head_of, body_of};
ghost use Rattle.http_messages.specs.Request.{
  wanted_data,
  wanted_of,
  allows_edits,
  is_token_in,
  path_in,
  condition_in,
};

use bytes::Bytes;
use http::{HeaderMap, HeaderValue, Request, Uri, header};

/// What a request asks a site for.
#[derive(Clone, Copy)]
pub enum Wanted<'r> {
    /// The page of this path with its query, as the client sent them.
    Page(&'r str),
    /// That these lines are carried out, each a command.
    Commands(&'r [u8]),
    /// Nothing that is served.
    Refused(RequestFault),
}

/// Why a request gets no page.
#[derive(Clone, Copy, Debug, PartialEq, Eq)]
pub enum RequestFault {
    /// The target has no path.
    BadTarget,
    /// The request doesn't have the token that edits need.
    NoToken,
    /// No edits are taken here.
    NoEdits,
    /// The path has a page, and takes no commands.
    OnlyPages,
    /// The method is not known here.
    UnknownMethod,
    /// The path is longer than the path of a page may be.
    TooLong,
    /// The page was refused.
    Failed,
    /// Memory ran out.
    Unavailable,
}

/// Returns what a request asks for: GET and HEAD a page, POST to `/command` that its body is carried
/// out. That needs the token, in the form `Authorization: Bearer TOKEN` (RFC 6750, section 2.1);
/// without a token to compare with, no edits are taken.
pub fn read_request<'r>(request: &'r Request<Bytes>, token: Option<&[u8]>) -> Wanted<'r>
    ensures { wanted_data result ≡ wanted_of (option_map (λ t. t.now) token.entry)
        (head_of request.now) (body_of request.now) }
{
    let Some(path) = path_in(request.uri()) else {
        return Wanted::Refused(RequestFault::BadTarget);
    };
    let method = request.method().as_str();
    if method == "GET" || method == "HEAD" {
        return Wanted::Page(path);
    }
    if method != "POST" {
        return Wanted::Refused(RequestFault::UnknownMethod);
    }
    if path != "/command" {
        return Wanted::Refused(RequestFault::OnlyPages);
    }
    let Some(token) = token else {
        return Wanted::Refused(RequestFault::NoEdits);
    };
    if !allows_edits(request.headers(), token) {
        return Wanted::Refused(RequestFault::NoToken);
    }
    Wanted::Commands(request.body().as_slice())
}

/// Returns the condition of a request, if it has one: the value of its first `If-None-Match` (RFC
/// 9110, section 13.1.2).
pub fn condition_of(request: &Request<Bytes>) -> Option<&[u8]>
    ensures { option_map (λ c. c.now) result ≡ condition_in (head_of request.now).headers }
{
    match request.headers().get(header::IF_NONE_MATCH) {
        Some(value) => Some(value.as_bytes()),
        None => None,
    }
}

/// Returns the path of a target and its query, in origin form and in absolute form.
fn path_in(uri: &Uri) -> Option<&str>
    ensures { option_copied result ≡ path_in uri.now }
{
    let path = uri.path_and_query()?.as_str();
    if path.starts_with('/') {
        Some(path)
    } else {
        None
    }
}

/// Returns whether the fields have `Authorization: Bearer TOKEN`.
fn allows_edits(headers: &HeaderMap<HeaderValue>, token: &[u8]) -> bool
    ensures { result ≡ allows_edits headers.now token.now }
{
    match headers.get(header::AUTHORIZATION) {
        Some(value) => is_token_in(value.as_bytes(), token),
        None => false,
    }
}

fn is_token_in(value: &[u8], token: &[u8]) -> bool
    ensures { result ≡ is_token_in value.now token.now }
{
    value.len() >= 7 && value[..7].eq_ignore_ascii_case(b"bearer ") && &value[7..] == token
}
