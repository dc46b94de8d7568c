//! A site as a service of HTTP.
ghost use Rattle.std.specs.Prelude.{◌≡◌, OnOk, option_map};
ghost use Rattle.std.specs.String.{string_bytes};
ghost use Rattle.http_server.specs.Response.{IsBlank};
ghost use Rattle.site_replies.specs.Reply.{ReplyData};
ghost use Rattle.http_messages.specs.Response.{Shows, reply_response};
ghost use Rattle.http_pages.specs.Service.{Responds, CarriesOut};

use crate::pages::Pages;
use bytes::Bytes;
use http::Request;
use http_messages::{
    Wanted, condition_of, read_request, refuse, refuse_for_memory, respond_to_commands,
    respond_with,
};
use http_server::{Response, Service};
use http_streams::Commits;
use std::alloc::{AllocError, Global};

/// A site as a service of HTTP. It takes edits from whoever has the token, and from nobody if there
/// is no token.
#[derive(Drop)]
pub struct PageService<P> {
    /// The site.
    pub pages: P,
    /// What a request for edits has to have.
    pub token: Option<String>,
    /// Where responses are allocated.
    pub alloc: Global,
}

impl<P: Pages> Service for PageService<P> {
    ghost answers = { Responds P.Pages };

    fn call(
        &mut self,
        request: &Request<Bytes>,
        response: &mut Response,
    ) -> Result<(), AllocError> {
        if self.fill(request, response).is_err() {
            refuse_for_memory(response);
        }
        Ok(())
    }
}

impl<P: Pages> PageService<P> {
    ghost use Rattle.http_pages.specs.Service.{Fills};

    /// Fills the response to a request. On `Err` what was asked for may be done.
    fn fill(&mut self, request: &Request<Bytes>, response: &mut Response) -> Result<(), AllocError>
        requires { IsBlank response.old }
        ensures { Fills P.Pages self.old request.now response.new self.new result }
    {
        match read_request(request, token_bytes(&self.token)) {
            Wanted::Page(path) => show(
                self.alloc,
                &mut self.pages,
                condition_of(request),
                path,
                response,
            ),
            Wanted::Commands(lines) => carry_out(self.alloc, &mut self.pages, lines, response),
            Wanted::Refused(fault) => refuse(self.alloc, fault, response),
        }
    }
}

fn token_bytes(token: &Option<String>) -> Option<&[u8]>
    ensures { option_map (λ t. t.now) result ≡ option_map string_bytes token.now }
{
    match token {
        Some(token) => Some(token.as_str().as_bytes()),
        None => None,
    }
}

/// Fills the response to a request for the page of a path.
fn show<P: Pages>(
    alloc: Global,
    pages: &mut P,
    condition: Option<&[u8]>,
    path: &str,
    response: &mut Response,
) -> Result<(), AllocError>
    requires { IsBlank response.old }
    ensures shows { (reply : ReplyData) × P.shows pages.old path.now reply pages.new
        × OnOk result (Shows (reply_response (P.tag_of pages.old)
        (option_map (λ c. c.now) condition.entry) reply) response.new) }
    ensures sound { P.is_sound pages.old → P.is_sound pages.new }
{
    let tag = pages.tag();
    let reply = pages.page(path);
    respond_with(alloc, tag, condition, reply, response)
}

/// Fills the response to lines, each a command.
fn carry_out<P: Pages>(
    alloc: Global,
    pages: &mut P,
    lines: &[u8],
    response: &mut Response,
) -> Result<(), AllocError>
    requires { IsBlank response.old }
    ensures carries_out { CarriesOut P.Pages pages.old lines.now response.new pages.new result }
    ensures sound { P.is_sound pages.old → P.is_sound pages.new }
{
    let replies = pages.carry_out(lines)?;
    respond_to_commands(alloc, replies, response)
}

impl<P: Pages> Commits for PageService<P> {
    ghost settles = { λ old kept new. P.commits old.pages kept new.pages × (new.token ≡ old.token) };

    ghost is_sound = { λ s. P.is_sound s.pages };

    fn commit(&mut self) -> bool {
        self.pages.commit()
    }

    ghost stays_sound = { λ _ _ _ _ responds. responds.sound };
}
