//! From a site's reply to a response.
ghost use Rattle.std.specs.Prelude.{◌≡◌, ◌++◌, [], IsTrue, OnOk, length, option_map};
ghost use Rattle.http_server.specs.Response.{IsBlank, IsResponse, fields_of as sent};
ghost use Rattle.http_header.specs.FieldValue.{is_visible_text};
ghost use Rattle.site_replies.specs.Reply.{reply_data};
ghost use Rattle.http_messages.specs.Response.{
  Shows,
  page_response,
  reply_response,
  fault_response,
  commands_response,
  content_fields,
  status_of,
  text_of,
  fault_of,
};

use crate::entity_tag::{EntityTag, lists, tag_text};
use crate::request::RequestFault;
use bytes::Bytes;
use http::{HeaderValue, StatusCode, header};
use http_server::Response;
use site_replies::{Refusal, SiteReply};
use std::alloc::{AllocError, Global};

const HTML: &str = "text/html; charset=utf-8";

const TEXT: &str = "text/plain; charset=utf-8";

/// Fills the response to a request for a page, from the site's reply. A page that was found has the
/// tag, and is left out if the condition lists it.
pub fn respond_with(
    alloc: Global,
    tag: EntityTag,
    condition: Option<&[u8]>,
    reply: SiteReply,
    response: &mut Response,
) -> Result<(), AllocError>
    requires { IsBlank response.old }
    ensures { OnOk result (Shows (reply_response tag (option_map (λ c. c.now) condition.entry)
        (reply_data reply)) response.new) }
{
    match reply {
        SiteReply::Page { status, body } => respond_with_page(
            alloc, tag, condition, status, body, response,
        ),
        SiteReply::Refused(refusal) => refuse(alloc, fault_of(refusal), response),
        SiteReply::Ok | SiteReply::OkId(_) => refuse(alloc, RequestFault::Failed, response),
    }
}

/// Fills the response to commands, from the bytes of their replies.
pub fn respond_to_commands(
    alloc: Global,
    replies: Vec<u8>,
    response: &mut Response,
) -> Result<(), AllocError>
    requires { IsBlank response.old }
    ensures { OnOk result (Shows (commands_response replies.items) response.new) }
{
    fill(alloc, TEXT, Bytes::from_vec(replies)?, response)
}

/// Fills the response that refuses a request, with the fields that its status asks for (RFC 9110,
/// sections 11.6.1 and 15.5.6).
pub fn refuse(alloc: Global, fault: RequestFault, response: &mut Response) -> Result<(), AllocError>
    requires { IsBlank response.old }
    ensures { OnOk result (Shows (fault_response fault) response.new) }
{
    response.status = status_of(fault);
    fill(
        alloc,
        TEXT,
        Bytes::from_static(text_of(fault).as_bytes()),
        response,
    )?;
    match fault {
        RequestFault::NoToken => response.add_header(
            header::WWW_AUTHENTICATE,
            HeaderValue::from_static("Bearer"),
        ),
        RequestFault::OnlyPages => response.add_header(
            header::ALLOW,
            HeaderValue::from_static("GET, HEAD"),
        ),
        _ => Ok(()),
    }
}

/// Fills the response after a failed allocation: a 503 without fields and without a body. It allocates
/// nothing.
pub fn refuse_for_memory(response: &mut Response)
    ensures { IsResponse 503 [] [] response.new }
{
    response.clear();
    response.status = StatusCode::SERVICE_UNAVAILABLE;
}

fn respond_with_page(
    alloc: Global,
    tag: EntityTag,
    condition: Option<&[u8]>,
    status: u16,
    page: Bytes,
    response: &mut Response,
) -> Result<(), AllocError>
    requires { IsBlank response.old }
    ensures { OnOk result (Shows (page_response tag (option_map (λ c. c.now) condition.entry) status
        page) response.new) }
{
    let Ok(code) = StatusCode::from_u16(status) else {
        return Err(AllocError);
    };
    response.status = code;
    if status != 200 {
        return fill(alloc, HTML, page, response);
    }
    let text = tag_text(alloc, tag)?;
    if let Some(condition) = condition
        && lists(condition, &text)
    {
        response.status = StatusCode::NOT_MODIFIED;
    } else {
        fill(alloc, HTML, page, response)?;
    }
    let Ok(value) = HeaderValue::from_vec(text) else {
        return Err(AllocError);
    };
    response.add_header(header::ETAG, value)
}

/// Adds content to a response that has none, with its type and its length.
fn fill(
    alloc: Global,
    kind: &'static str,
    content: Bytes,
    response: &mut Response,
) -> Result<(), AllocError>
    requires kind { IsTrue (is_visible_text kind.now) }
    requires empty { response.old.body.items ≡ [] }
    ensures status { response.new.status ≡ response.old.status }
    ensures fields { OnOk result (sent response.new ≡ sent response.old
        ++ content_fields kind.now (length content)) }
    ensures body { OnOk result (response.new.body.items ≡ content) }
{
    response.add_header(header::CONTENT_TYPE, HeaderValue::from_static(kind))?;
    let len = HeaderValue::from_u64(alloc, content.len() as u64)?;
    response.add_header(header::CONTENT_LENGTH, len)?;
    response.body.push(content)
}

fn status_of(fault: RequestFault) -> StatusCode
    ensures { result ≡ status_of fault }
{
    match fault {
        RequestFault::BadTarget => StatusCode::BAD_REQUEST,
        RequestFault::NoToken => StatusCode::UNAUTHORIZED,
        RequestFault::NoEdits => StatusCode::FORBIDDEN,
        RequestFault::OnlyPages => StatusCode::METHOD_NOT_ALLOWED,
        RequestFault::TooLong => StatusCode::URI_TOO_LONG,
        RequestFault::Failed => StatusCode::INTERNAL_SERVER_ERROR,
        RequestFault::UnknownMethod => StatusCode::NOT_IMPLEMENTED,
        RequestFault::Unavailable => StatusCode::SERVICE_UNAVAILABLE,
    }
}

fn text_of(fault: RequestFault) -> &'static str
    ensures { result.now ≡ text_of fault }
{
    match fault {
        RequestFault::BadTarget => "the target has no path\n",
        RequestFault::NoToken => "edits need their token\n",
        RequestFault::NoEdits => "no edits are taken here\n",
        RequestFault::OnlyPages => "there are only pages here\n",
        RequestFault::TooLong => "the path is too long\n",
        RequestFault::Failed => "the page failed\n",
        RequestFault::UnknownMethod => "the method is unknown\n",
        RequestFault::Unavailable => "memory ran out\n",
    }
}

fn fault_of(refusal: Refusal) -> RequestFault
    ensures { result ≡ fault_of refusal }
{
    match refusal {
        Refusal::TooLarge => RequestFault::TooLong,
        Refusal::OutOfMemory => RequestFault::Unavailable,
        _ => RequestFault::Failed,
    }
}
