//! What an open page shows between its turns.
ghost use Rattle.std.specs.Prelude.{◌≡◌, IfOk, IfSome, option_map};
ghost use Rattle.hook_machine.specs.Invocations.{made_as};
ghost use Rattle.template_parts.specs.Told.{made_of, calls_of, steps_left, post_id};
ghost use Rattle.template_parts.specs.Told.{ArePostsOfSteps};
ghost use Rattle.template_parts.specs.Open.{event_of};

use crate::open_page::OpenPage;
use crate::steps::{Step, steps_of_page};
use hook_machine::Invocation;
use site_records::Post;
use std::alloc::AllocError;

/// Returns the ID of the post that a step is about, if it is about one.
fn post_id(posts: &[Post], step: Step) -> Option<u32>
    ensures { result ≡ post_id posts.now step }
{
    match posts.get(step.post?) {
        Some(post) => Some(post.id),
        None => None,
    }
}

impl OpenPage {
    /// Returns the invocation that the page's last turn has made. It is `None` before the first
    /// turn.
    pub fn invocation(&self) -> Option<Invocation<'_>>
        ensures made { option_map made_as result ≡ made_of self.entry.now }
        ensures event { IfSome result (λ i. (i.callback ≡ (event_of self.entry.now).callback)
            × (i.call.now ≡ (event_of self.entry.now).call)) }
    {
        self.run.invocation()
    }

    /// Returns how many invocations the page may still make.
    pub fn calls_left(&self) -> u32
        ensures { result ≡ calls_of self.now }
    {
        self.run.calls_left()
    }

    /// Returns how many of the page's steps are still to be begun, once its first turn has begun. A
    /// step is an item of the page, over its post.
    pub fn steps_left(&self) -> Option<usize>
        ensures { result ≡ steps_left self.now }
    {
        match &self.ahead {
            Some(ahead) => Some(ahead.steps.len()),
            None => None,
        }
    }

    /// Returns the ID of the post of each step of the page, finished steps included, or `None` for a
    /// step without a post.
    pub fn posts_of_steps(&self) -> Result<Vec<Option<u32>>, AllocError>
        ensures { IfOk result (λ ids. ArePostsOfSteps self.now ids.items) }
    {
        let posts = self.found.get().posts.as_slice();
        let mut steps = steps_of_page(self.alloc, &self.settings, posts)?;
        let mut ids = Vec::new(self.alloc);
        'steps: while let Some(step) = steps.take_first() {
            ids.push(post_id(posts, step))?;
        }
        Ok(ids)
    }
}
