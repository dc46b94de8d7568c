//! The hooks that the engine itself runs.
ghost use Rattle.std.specs.Prelude.{◌≡◌};
ghost use Rattle.plain_data.specs.Names.{core_name};

/// A hook that the engine itself runs: an action of a request, or a filter on what a page shows
/// (Plugin API, Action and Filter References).
#[derive(Clone, Copy, Debug)]
pub enum CoreHook {
    PluginsLoaded,
    Init,
    WpLoaded,
    Wp,
    TemplateRedirect,
    GetHeader,
    GetFooter,
    WpHead,
    WpFooter,
    TheTitle,
    TheContent,
    DoShortcodeTag,
}

impl CoreHook {
    /// Returns the hook's name.
    pub fn name(self) -> &'static str
        ensures { result.now ≡ core_name self }
    {
        match self {
            CoreHook::PluginsLoaded => "plugins_loaded",
            CoreHook::Init => "init",
            CoreHook::WpLoaded => "wp_loaded",
            CoreHook::Wp => "wp",
            CoreHook::TemplateRedirect => "template_redirect",
            CoreHook::GetHeader => "get_header",
            CoreHook::GetFooter => "get_footer",
            CoreHook::WpHead => "wp_head",
            CoreHook::WpFooter => "wp_footer",
            CoreHook::TheTitle => "the_title",
            CoreHook::TheContent => "the_content",
            CoreHook::DoShortcodeTag => "do_shortcode_tag",
        }
    }
}
