//! Beginning an item of a page, and handing on the result of its job.
ghost use Rattle.std.specs.Prelude.{◌≡◌, [], ◌∷◌, IfOk, option_map, decimal};
ghost use Rattle.plain_data.specs.Names.{core_name};
ghost use Rattle.hook_machine.specs.Runs.{IsReady};
ghost use Rattle.template_parts.specs.Pages.{print_text, permalink, shown_pass, title_pass};
ghost use Rattle.template_parts.specs.Pages.{content_pass, action_pass};
ghost use Rattle.template_parts.specs.Pages.{post_tag_pass, tag_pass, item_pass};
ghost use Rattle.template_parts.specs.Left.{shown_as, handed_on, Begins, BeginsBy, Finishes};

use crate::settings::Settings;
use callback_store::Stated;
use hook_machine::{Job, Pace, Run, RunFault};
use itoa::Buffer;
use page_escapes::{escape_ends, escape_html, has_no_end, has_no_mark, into_escaped_html};
use plain_data::{CoreHook, Listed, Text};
use site_records::{Post, PostKind};
use std::alloc::{AllocError, Global};
use template_trees::{Item, PostTag, Tag};

/// How a text is shown.
#[derive(Clone, Copy, Debug)]
pub enum Shown {
    Plain,
    /// With the characters that HTML reads as its own escaped.
    HtmlEscaped,
    /// With each `]]>` escaped.
    EndsEscaped,
}

/// What becomes of the result of the job under way.
#[derive(Clone, Copy, Debug)]
pub enum Hand {
    Printed(Shown),
    Dropped,
}

/// Prints a text as it is.
fn print<S: Stated>(run: &mut Run<'_, S>, text: &str) -> Result<Option<Hand>, RunFault>
    requires { IsReady run.old }
    ensures { Begins S.says S.number run.old result run.new
        (λ engine world. print_text world text.now) }
{
    run.print(text)?;
    Ok(None)
}

/// Prints a text with the characters that HTML reads as its own escaped.
fn print_escaped<S: Stated>(
    alloc: Global,
    run: &mut Run<'_, S>,
    text: &str,
) -> Result<Option<Hand>, RunFault>
    requires { IsReady run.old }
    ensures { Begins S.says S.number run.old result run.new
        (λ engine world. print_text world (shown_as Shown.HtmlEscaped text.now)) }
{
    if has_no_mark(text) {
        return print(run, text);
    }
    let escaped = escape_html(alloc, text)?;
    print(run, escaped.as_str())
}

/// Prints a text with each `]]>` escaped.
fn print_ends_escaped<S: Stated>(
    alloc: Global,
    run: &mut Run<'_, S>,
    text: &str,
) -> Result<Option<Hand>, RunFault>
    requires { IsReady run.old }
    ensures { Begins S.says S.number run.old result run.new
        (λ engine world. print_text world (shown_as Shown.EndsEscaped text.now)) }
{
    if has_no_end(text) {
        return print(run, text);
    }
    let escaped = escape_ends(alloc, Text::copied(alloc, text)?)?;
    print(run, escaped.as_str())
}

/// Prints the path of a post or page.
fn print_permalink<S: Stated>(
    alloc: Global,
    run: &mut Run<'_, S>,
    post: &Post,
) -> Result<Option<Hand>, RunFault>
    requires { IsReady run.old }
    ensures { Begins S.says S.number run.old result run.new
        (λ engine world. print_text world (permalink post.now)) }
{
    let path = permalink(alloc, post)?;
    print(run, path.as_str())
}

/// Starts an action with no arguments, unless nothing is registered on it.
pub(crate) fn start_action<S: Stated>(
    alloc: Global,
    run: &mut Run<'_, S>,
    settings: &Settings,
    hook: Text,
) -> Result<Option<Hand>, RunFault>
    requires { IsReady run.old }
    ensures { Begins S.says S.number run.old result run.new
        (λ engine world. action_pass engine settings.now world hook) }
{
    match run.pass_over_action(hook)? {
        None => Ok(None),
        Some(hook) => {
            let args = Listed::empty(alloc);
            run.start(Job::Action { hook, args })?;
            Ok(Some(Hand::Dropped))
        }
    }
}

/// Starts a filter, whose value is to be printed.
fn start_filter<S: Stated>(
    alloc: Global,
    run: &mut Run<'_, S>,
    settings: &Settings,
    hook: CoreHook,
    value: Text,
    args: Listed<Text>,
    shown: Shown,
) -> Result<Option<Hand>, RunFault>
    requires { IsReady run.old }
    ensures { Begins S.says S.number run.old result run.new
        (λ engine world. shown_pass engine settings.now (shown_as shown) world
        (core_name hook) value args) }
{
    let hook = Text::core(alloc, hook);
    run.start(Job::Filters { hook, value, args })?;
    Ok(Some(Hand::Printed(shown)))
}

/// Prints a value that no callback filters, as it is shown.
fn print_unfiltered<S: Stated>(
    alloc: Global,
    run: &mut Run<'_, S>,
    value: &str,
    shown: Shown,
) -> Result<Option<Hand>, RunFault>
    requires { IsReady run.old }
    ensures { Begins S.says S.number run.old result run.new
        (λ engine world. print_text world (shown_as shown value.now)) }
{
    match shown {
        Shown::Plain => print(run, value),
        Shown::HtmlEscaped => print_escaped(alloc, run, value),
        Shown::EndsEscaped => print_ends_escaped(alloc, run, value),
    }
}

/// Starts the filter of a title, which also gets the post's number. If nothing is registered on it,
/// the title is printed at once.
fn start_title<S: Stated>(
    alloc: Global,
    run: &mut Run<'_, S>,
    settings: &Settings,
    post: &Post,
    shown: Shown,
) -> Result<Option<Hand>, RunFault>
    requires { IsReady run.old }
    ensures { Begins S.says S.number run.old result run.new
        (λ engine world. title_pass engine settings.now (shown_as shown) post.now world) }
{
    if !run.is_hooked("the_title") {
        return print_unfiltered(alloc, run, post.title.as_str(), shown);
    }
    let title = post.title.clone()?;
    let args = number_argument(alloc, post.id)?;
    start_filter(alloc, run, settings, CoreHook::TheTitle, title, args, shown)
}

/// Starts the filter of a content. If the run needn't stop in it and it leaves the content as it
/// is, the content is printed at once.
fn start_content<S: Stated>(
    alloc: Global,
    run: &mut Run<'_, S>,
    settings: &Settings,
    post: &Post,
    pace: Pace,
) -> Result<Option<Hand>, RunFault>
    requires { IsReady run.old }
    ensures { BeginsBy pace S.says S.number run.old result run.new
        (λ engine world. content_pass engine settings.now post.now world) }
{
    if run.pass_over("the_content", post.content.as_str(), pace)? {
        return print_ends_escaped(alloc, run, post.content.as_str());
    }
    let content = post.content.clone()?;
    let args = Listed::empty(alloc);
    start_filter(
        alloc,
        run,
        settings,
        CoreHook::TheContent,
        content,
        args,
        Shown::EndsEscaped,
    )
}

#[tactic(auto, using(crate::proofs::Moving::begins_by), unfolding(crate::specs::Pages::post_tag_pass, crate::specs::Pages::shown_pass))]
fn begin_post_tag<S: Stated>(
    alloc: Global,
    run: &mut Run<'_, S>,
    settings: &Settings,
    post: &Post,
    tag: PostTag,
    pace: Pace,
) -> Result<Option<Hand>, RunFault>
    requires { IsReady run.old }
    ensures { BeginsBy pace S.says S.number run.old result run.new
        (λ engine world. post_tag_pass engine settings.now post.now world tag) }
{
    match tag {
        PostTag::TheTitle => start_title(alloc, run, settings, post, Shown::Plain),
        PostTag::TitleEscaped => start_title(alloc, run, settings, post, Shown::HtmlEscaped),
        PostTag::TheContent => start_content(alloc, run, settings, post, pace),
        PostTag::TheId => print(run, Buffer::new().format(post.id)),
        PostTag::ThePermalink => print_permalink(alloc, run, post),
        PostTag::PostDate => print(run, post.date.as_str()),
    }
}

/// Begins a tag; outside a loop there is no post, and the tags of a post print nothing.
#[tactic(auto, using(crate::proofs::Moving::begins_by), unfolding(crate::specs::Pages::tag_pass))]
fn begin_tag<S: Stated>(
    alloc: Global,
    run: &mut Run<'_, S>,
    settings: &Settings,
    post: Option<&Post>,
    tag: Tag,
    pace: Pace,
) -> Result<Option<Hand>, RunFault>
    requires { IsReady run.old }
    ensures { BeginsBy pace S.says S.number run.old result run.new
        (λ engine world. tag_pass engine settings.now (option_map (λ p. p.now) post.entry) world
        tag) }
{
    match tag {
        Tag::OfPost(tag) => match post {
            Some(post) => begin_post_tag(alloc, run, settings, post, tag, pace),
            None => Ok(None),
        },
        Tag::SiteName => print_escaped(alloc, run, settings.site_name.as_str()),
        Tag::WpHead => start_action(alloc, run, settings, Text::core(alloc, CoreHook::WpHead)),
        Tag::WpFooter => start_action(alloc, run, settings, Text::core(alloc, CoreHook::WpFooter)),
    }
}

/// Begins an item: a text is printed, and an action or a filter is started.
#[tactic(auto, using(crate::proofs::Moving::begins_by), unfolding(crate::specs::Pages::item_pass))]
pub(crate) fn begin_item<S: Stated>(
    alloc: Global,
    run: &mut Run<'_, S>,
    settings: &Settings,
    post: Option<&Post>,
    item: &Item,
    pace: Pace,
) -> Result<Option<Hand>, RunFault>
    requires { IsReady run.old }
    ensures { BeginsBy pace S.says S.number run.old result run.new
        (λ engine world. item_pass engine settings.now (option_map (λ p. p.now) post.entry) world
        item.now) }
{
    match item {
        Item::Text(text) => print(run, text.as_str()),
        Item::Tag(tag) => begin_tag(alloc, run, settings, post, *tag, pace),
        Item::Action(hook) => start_action(alloc, run, settings, hook.clone()?),
    }
}

/// Hands on the result of a job: it is printed or dropped.
pub(crate) fn hand_on<S: Stated>(
    alloc: Global,
    run: &mut Run<'_, S>,
    hand: Hand,
    text: Text,
) -> Result<(), RunFault>
    requires { IsReady run.old }
    ensures { Finishes S.says S.number run.old result run.new (λ world. handed_on hand world text) }
{
    match hand {
        Hand::Printed(shown) => print_shown(alloc, run, shown, text),
        Hand::Dropped => Ok(()),
    }
}

fn print_shown<S: Stated>(
    alloc: Global,
    run: &mut Run<'_, S>,
    shown: Shown,
    text: Text,
) -> Result<(), RunFault>
    requires { IsReady run.old }
    ensures { Finishes S.says S.number run.old result run.new
        (λ world. print_text world (shown_as shown text)) }
{
    match shown {
        Shown::Plain => run.print(text.as_str()),
        Shown::HtmlEscaped => {
            let escaped = into_escaped_html(alloc, text)?;
            run.print(escaped.as_str())
        }
        Shown::EndsEscaped => {
            let escaped = escape_ends(alloc, text)?;
            run.print(escaped.as_str())
        }
    }
}

/// Returns the path of a post or page.
fn permalink(alloc: Global, post: &Post) -> Result<Text, AllocError>
    ensures { IfOk result (λ path. path ≡ permalink post.now) }
{
    let before = match post.kind {
        PostKind::Post => "/?p=",
        PostKind::Page => "/?page_id=",
    };
    let mut path = Text::copied(alloc, before)?;
    path.push_str(Buffer::new().format(post.id))?;
    Ok(path)
}

fn number_argument(alloc: Global, id: u32) -> Result<Listed<Text>, AllocError>
    ensures { IfOk result (λ args. args ≡ decimal id ∷ []) }
{
    let id = Text::copied(alloc, Buffer::new().format(id))?;
    let mut args = Listed::empty(alloc);
    args.push(id)?;
    Ok(args)
}
