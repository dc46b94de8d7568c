//! The plugin `gallery`: a shortcode that shows pictures, as many in a row as it is told, and a
//! line at the page's end.
//! docs/PLUGINS.md goes through it.
#![tactic(auto)]

ghost use Rattle.std.specs.Prelude.{◌≡◌, ◌<◌, ◌∷◌, [], IfOk, flat_map, map, unwrap_or};
ghost use Rattle.shortcode_atts.specs.Attributes.{value_of};
ghost use Rattle.callback_store.specs.Shape.{shape_of};
ghost use Rattle.example_gallery.specs.Gallery.{columns_in, credit, drawn, gallery, gallery_html, ids_in};
ghost use Rattle.example_gallery.specs.Gallery.{load, picture};
ghost use Rattle.example_gallery.specs.Numbers.{number_of};

use callback_store::{Plugin, Stated};
use hook_changes::{Answer, Ask, Atts, Call, CallbackId, Change, Listed, Reply, Text};
use page_escapes::escape_html;
use std::alloc::{AllocError, Global};

/// The callbacks of the plugin.
#[derive(Clone, Copy)]
pub enum Callback {
    /// Number 1001, the handler of `[gallery ids="3,1,2" columns=2]`.
    Gallery,
    /// Number 1002, an action on `wp_footer`.
    Credit,
}

impl Stated for Callback {
    ghost use Rattle.example_gallery.specs.Gallery.{says};
    ghost use Rattle.example_gallery.specs.Numbers.{number_of};

    ghost says = { says };

    ghost number = { number_of };

    fn id(&self) -> CallbackId {
        match self {
            Callback::Gallery => CallbackId::new(1001),
            Callback::Credit => CallbackId::new(1002),
        }
    }

    #[tactic(auto, unfolding(crate::specs::Gallery::says))]
    fn answer(&self, alloc: Global, call: &Call) -> Result<Reply, AllocError> {
        match self {
            Callback::Gallery => {
                let html = gallery_html(alloc, &call.atts)?;
                Ok(Reply::answer(alloc, html))
            }
            Callback::Credit => credit(alloc, call.answers.as_slice()),
        }
    }
}

/// Makes a list of this plugin alone.
pub fn listed(alloc: Global) -> Result<Listed<Plugin<Callback>>, AllocError>
    ensures { IfOk result (λ plugins. map (shape_of number_of) plugins ≡ gallery ∷ []) }
{
    let mut callbacks = Listed::empty(alloc);
    callbacks.push(Callback::Gallery)?;
    callbacks.push(Callback::Credit)?;
    let name = Text::copied(alloc, "gallery")?;
    let load = load(alloc)?;
    let mut plugins = Listed::empty(alloc);
    plugins.push(Plugin {
        name,
        load,
        callbacks,
    })?;
    Ok(plugins)
}

/// Makes the load list: what each request begins with if the plugin is active.
fn load(alloc: Global) -> Result<Listed<Change>, AllocError>
    ensures { IfOk result (λ changes. changes ≡ load) }
{
    let mut changes = Listed::empty(alloc);
    changes.push(Change::AddTag {
        tag: Text::copied(alloc, "gallery")?,
        callback: Callback::Gallery.id(),
    })?;
    changes.push(Change::Add {
        hook: Text::copied(alloc, "wp_footer")?,
        priority: 10,
        callback: Callback::Credit.id(),
        accepted: 0,
    })?;
    Ok(changes)
}

/// Asks for the site's title and then prints it.
fn credit(alloc: Global, answers: &[Answer]) -> Result<Reply, AllocError>
    ensures { IfOk result (λ reply. reply ≡ credit answers.now) }
{
    match answers {
        [] => {
            let name = Text::copied(alloc, "blogname")?;
            Ok(Reply::ask(alloc, Ask::GetOption { name }))
        }
        [Answer::Text(name), ..] => {
            let name = escape_html(alloc, name.as_str())?;
            let name = name.as_str();
            let html = format!(in alloc; "<p>Pictures: {name}</p>")?;
            Ok(Reply::answer(alloc, Text::empty(alloc)).with_echo(Text::new(html)))
        }
        _ => Ok(Reply::answer(alloc, Text::empty(alloc))),
    }
}

/// Draws the pictures that the attributes ask for.
fn gallery_html(alloc: Global, atts: &Atts) -> Result<Text, AllocError>
    ensures { IfOk result (λ html. html ≡ gallery_html atts.now) }
{
    let ids = ids_in(alloc, value_or(atts, "ids", ""))?;
    let columns = columns_in(value_or(atts, "columns", "3"));
    drawn(alloc, 100 / columns, ids.as_slice())
}

/// Returns the value of an attribute, or else the default.
fn value_or<'a>(atts: &'a Atts, name: &str, default: &'a str) -> &'a str
    ensures { result.now ≡ unwrap_or (value_of atts.entry.now name.now) default.entry.now }
{
    match atts.named(name) {
        Some(value) => value,
        None => default,
    }
}

/// Returns how many pictures are in a row: what one digit from 1 to 9 says, and else 3.
fn columns_in(text: &str) -> u8
    ensures value { result ≡ columns_in text.now }
    ensures some { 0 < result }
{
    match text.as_bytes() {
        [digit @ b'1'..=b'9'] => digit - b'0',
        _ => 3,
    }
}

/// Returns what is between the commas of a text.
fn ids_in<'a>(alloc: Global, text: &'a str) -> Result<Vec<&'a str>, AllocError>
    ensures { IfOk result (λ ids. map (λ id. id.now) ids.items ≡ ids_in text.entry.now) }
{
    text.split(',').collect(alloc)
}

/// Draws pictures, each so wide in hundredths.
fn drawn(alloc: Global, width: u8, ids: &[&str]) -> Result<Text, AllocError>
    ensures { IfOk result (λ html. html ≡ drawn width (map (λ id. id.now) ids.now)) }
{
    let pictures = pictures(alloc, width, ids)?;
    let pictures = pictures.as_str();
    let html = format!(in alloc; "<div class=\"gallery\">{pictures}</div>")?;
    Ok(Text::new(html))
}

/// Draws pictures one after another.
fn pictures(alloc: Global, width: u8, ids: &[&str]) -> Result<Text, AllocError>
    ensures { IfOk result (λ html. html ≡ flat_map (picture width) (map (λ id. id.now) ids.now)) }
{
    let mut pictures = Text::empty(alloc);
    for id in ids {
        pictures.push_str(picture(alloc, width, id)?.as_str())?;
    }
    Ok(pictures)
}

/// Draws a picture, and nothing for an empty ID.
#[tactic(auto, unfolding(crate::specs::Gallery::picture))]
fn picture(alloc: Global, width: u8, id: &str) -> Result<Text, AllocError>
    ensures { IfOk result (λ html. html ≡ picture width id.now) }
{
    if let [] = id.as_bytes() {
        return Ok(Text::empty(alloc));
    }
    let id = escape_html(alloc, id)?;
    let id = id.as_str();
    let html = format!(in alloc; "<img src=\"/media/{id}.jpg\" style=\"width:{width}%\">")?;
    Ok(Text::new(html))
}
