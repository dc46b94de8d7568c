//! The lines of options, templates and active plugins.
ghost use Rattle.std.specs.Prelude.{◌≡◌, ◌++◌, string_bytes, map, IfOk, OnOk};
ghost use Rattle.site_export.specs.Lines.{option_line, template_line, activate_line};

use crate::line::{begin_command, end_command, ended, put_text};
use plain_data::Text;
use std::alloc::{AllocError, Global};

fn option_line(alloc: Global, name: &str, value: &str) -> Result<String, AllocError>
    ensures { IfOk result (λ line. string_bytes line
        ≡ option_line (record { 0 = name.now; 1 = value.now })) }
{
    let mut line = begin_command(alloc, "option")?;
    put_text(&mut line, "name", name)?;
    put_text(&mut line, "value", value)?;
    end_command(line)
}

/// Returns the line that stores a template. What is stored of it is JSON, and stands in the line as
/// it is.
fn template_line(alloc: Global, name: &str, tree: &str) -> Result<String, AllocError>
    ensures { IfOk result (λ line. string_bytes line
        ≡ template_line (record { 0 = name.now; 1 = tree.now })) }
{
    let mut front = begin_command(alloc, "template")?;
    put_text(&mut front, "name", name)?;
    front.key("body")?;
    let mut line = ended(front);
    line.push_str(tree)?;
    line.push_str("}")?;
    Ok(line)
}

fn activate_line(alloc: Global, plugin: &str) -> Result<String, AllocError>
    ensures { IfOk result (λ line. string_bytes line ≡ activate_line plugin.now) }
{
    let mut line = begin_command(alloc, "activate")?;
    put_text(&mut line, "plugin", plugin)?;
    end_command(line)
}

/// Appends the lines of options.
pub(crate) fn push_options(
    alloc: Global,
    lines: &mut Vec<String>,
    options: &[(Text, Text)],
) -> Result<(), AllocError>
    ensures { OnOk result (map string_bytes lines.new.items
        ≡ map string_bytes lines.old.items ++ map option_line options.now) }
{
    for (name, value) in options {
        lines.push(option_line(alloc, name.as_str(), value.as_str())?)?;
    }
    Ok(())
}

/// Appends the lines of templates.
pub(crate) fn push_templates(
    alloc: Global,
    lines: &mut Vec<String>,
    templates: &[(Text, Text)],
) -> Result<(), AllocError>
    ensures { OnOk result (map string_bytes lines.new.items
        ≡ map string_bytes lines.old.items ++ map template_line templates.now) }
{
    for (name, tree) in templates {
        lines.push(template_line(alloc, name.as_str(), tree.as_str())?)?;
    }
    Ok(())
}

/// Appends the lines of active plugins.
pub(crate) fn push_active(
    alloc: Global,
    lines: &mut Vec<String>,
    plugins: &[Text],
) -> Result<(), AllocError>
    ensures { OnOk result (map string_bytes lines.new.items
        ≡ map string_bytes lines.old.items ++ map activate_line plugins.now) }
{
    for plugin in plugins {
        lines.push(activate_line(alloc, plugin.as_str())?)?;
    }
    Ok(())
}
