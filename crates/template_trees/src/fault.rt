//! Why a template is refused.
use std::alloc::AllocError;
use thiserror::Error;

/// Why a body is refused as a template.
#[derive(Clone, Copy, Debug, PartialEq, Eq, Error)]
pub enum TemplateFault {
    /// The name isn't that of a template, or the body has something that a template doesn't have in
    /// that place.
    #[error("not a template")]
    BadTemplate,
    /// The template has more than 4,096 nodes or more than 262,144 bytes of texts.
    #[error("the template is too large")]
    TooLarge,
    /// Memory for the template ran out.
    #[error("out of memory")]
    OutOfMemory,
}

impl From<AllocError> for TemplateFault {
    ghost use Rattle.std.specs.Prelude.{◌≡◌};
    ghost use Rattle.template_trees.specs.declared.fault.TemplateFault.{TemplateFault};

    ghost from_gives = { λ _ fault. fault ≡ TemplateFault.OutOfMemory };

    fn from(_error: AllocError) -> Self {
        TemplateFault::OutOfMemory
    }
}
