//! Where responses end. A law is a function without a body.
ghost use Rattle.std.specs.Prelude.{ℕ, List, Option};
ghost use Rattle.http_laws.specs.Ends.{SaysItsEnd};
ghost use Rattle.http_messages.specs.declared.entity_tag.EntityTag.{EntityTag as Tag};
ghost use Rattle.http_messages.specs.declared.request.RequestFault.{RequestFault as Fault};
ghost use Rattle.http_messages.specs.Response.{commands_response, fault_response, reply_response};
ghost use Rattle.site_replies.specs.Reply.{ReplyData};

/// A law: each response says where it ends, by a length or by its status, as
/// `the_client_reads_the_answers` wants it. The response after a failed allocation is not
/// among these.
pub fn responses_say_their_end()
    ensures page { (tag : Tag) (condition : Option (List ℕ)) (reply : ReplyData)
        → SaysItsEnd (reply_response tag condition reply) }
    ensures commands { (replies : List ℕ) → SaysItsEnd (commands_response replies) }
    ensures refusal { (fault : Fault) → SaysItsEnd (fault_response fault) }
{}
