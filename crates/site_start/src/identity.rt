//! The first line of a log: which program writes it.
ghost use Rattle.std.specs.Prelude.{◌≡◌, ◌++◌, [], map, flat_map, IfOk, OnOk, string_bytes};
ghost use Rattle.callback_store.specs.Shape.{shape_of, shapes_of};
ghost use Rattle.json.specs.Print.{print};
ghost use Rattle.site_start.specs.Identity.{callback_tokens, identity_line, plugin_tokens};

use callback_store::{Plugin, Plugins, Stated};
use json::Writer;
use std::alloc::{AllocError, Global};

// The version of what lines mean. A program in which some edit means something else has another
// one.
const MEANING: u64 = 1;

/// Returns the line that names a program: the version of what its lines mean, and its plugins in
/// the order of their names, each with the numbers of its callbacks, as in
/// `{"site":1,"plugins":[["bold",[17,18]]]}`. It is no command.
pub fn identity_of<S: Stated>(alloc: Global, plugins: &Plugins<S>) -> Result<String, AllocError>
    ensures { IfOk result (λ line. string_bytes line
        ≡ identity_line (shapes_of S.number plugins.now)) }
{
    let mut line = Writer::new(Vec::new(alloc));
    line.begin_object()?;
    line.key("site")?;
    line.u64(MEANING)?;
    line.key("plugins")?;
    line.begin_array()?;
    put_plugins(&mut line, plugins.as_slice())?;
    line.end_array()?;
    line.end_object()?;
    Ok(text_of(line))
}

/// Writes plugins, one after another.
fn put_plugins<S: Stated>(line: &mut Writer, plugins: &[Plugin<S>]) -> Result<(), AllocError>
    ensures before { line.new.before ≡ line.old.before }
    ensures tokens { OnOk result (line.new.tokens
        ≡ line.old.tokens ++ flat_map plugin_tokens (map (shape_of S.number) plugins.now)) }
{
    for plugin in plugins {
        put_plugin(line, plugin)?;
    }
    Ok(())
}

/// Writes a plugin: its name and the numbers of its callbacks.
fn put_plugin<S: Stated>(line: &mut Writer, plugin: &Plugin<S>) -> Result<(), AllocError>
    ensures before { line.new.before ≡ line.old.before }
    ensures tokens { OnOk result (line.new.tokens
        ≡ line.old.tokens ++ plugin_tokens (shape_of S.number plugin.now)) }
{
    line.begin_array()?;
    line.string(plugin.name.as_str())?;
    line.begin_array()?;
    put_callbacks(line, plugin.callbacks.as_slice())?;
    line.end_array()?;
    line.end_array()
}

/// Writes the numbers of callbacks.
fn put_callbacks<S: Stated>(line: &mut Writer, callbacks: &[S]) -> Result<(), AllocError>
    ensures before { line.new.before ≡ line.old.before }
    ensures tokens { OnOk result (line.new.tokens
        ≡ line.old.tokens ++ callback_tokens (map S.number callbacks.now)) }
{
    for callback in callbacks {
        line.u64(u64::from(callback.id().number()))?;
    }
    Ok(())
}

/// Returns what was written.
fn text_of(line: Writer) -> String
    requires { line.before ≡ [] }
    ensures { string_bytes result ≡ print line.tokens }
{
    match String::from_utf8(line.into_inner()) {
        Ok(text) => text,
        Err(_) => unreachable!(),
    }
}
