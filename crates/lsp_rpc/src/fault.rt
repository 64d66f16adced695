//! Why a content is refused.
ghost use Rattle.lsp_types.specs.declared.fault.Fault.TheVariants.{Rule};
ghost use Rattle.std.specs.Prelude.{◌≡◌};

use lsp_types::Fault;

/// The lowest rule that a content breaks, by its number.
#[derive(Clone, Copy, Drop)]
pub struct BrokenRule(pub(crate) u16);

impl From<BrokenRule> for Fault {
    ghost from_gives = { λ broken e. e ≡ Rule broken.0 };

    fn from(broken: BrokenRule) -> Fault {
        Fault::Rule(broken.0)
    }
}
