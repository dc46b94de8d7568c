//! The program `site`: it serves lines of JSON from standard input to standard output, with the
//! bundled plugins, and with `--snippets` the plugin `snippets` beside them.
#![tactic(auto)]

ghost use Rattle.std.specs.Prelude.{◌≡◌, map};
ghost use Rattle.bundled_plugins.specs.Program.{numbers};

use bundled_plugins::{Stored, numbers, reply};
use callback_store::{PluginFault, Plugins, Stated};
use hook_changes::{Call, CallbackId, Listed, Reply};
use site_main::{failed, read_command_line, run};
use std::alloc::{AllocError, Global};
use std::process::ExitCode;

fn main(rt: HostRuntime) -> ExitCode {
    let asked = match read_command_line(&rt) {
        Ok(asked) => asked,
        Err(status) => return status,
    };
    let alloc = rt.alloc();
    let with_snippets = asked.with_snippets();
    let Ok(numbers) = numbers(alloc, with_snippets) else {
        return failed(&rt, PluginFault::OutOfMemory);
    };
    let mut callbacks = Vec::new(alloc);
    for number in numbers.as_slice() {
        let id = CallbackId::new(*number);
        // Each callback passes its call on. The closures are in `main` itself, where they are made.
        let Ok(function) = Box::new(
            alloc,
            move |alloc: Global, call: &Call| -> Result<Reply, AllocError> {
                reply(alloc, id, call)
            },
        ) else {
            return failed(&rt, PluginFault::OutOfMemory);
        };
        if callbacks.push(Stored::new(id, function)).is_err() {
            return failed(&rt, PluginFault::OutOfMemory);
        }
    }
    match plugins(alloc, Listed::new(callbacks), with_snippets) {
        Ok(plugins) => run(&rt, &plugins, asked),
        Err(fault) => failed(&rt, fault),
    }
}

/// Makes the plugins, over their callbacks.
fn plugins(
    alloc: Global,
    callbacks: Listed<Stored>,
    with_snippets: bool,
) -> Result<Plugins<Stored>, PluginFault>
    requires { map ⟦<Stored as Stated>⟧.number callbacks ≡ numbers with_snippets }
{
    let Ok(list) = bundled_plugins::plugins(alloc, callbacks, with_snippets) else {
        return Err(PluginFault::OutOfMemory);
    };
    Plugins::new(alloc, list)
}
