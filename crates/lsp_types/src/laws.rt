//! Laws of the definitions. Each function has no code: its contract is the law.

ghost use Rattle.lsp_types.specs.Numbers.{DocumentsBeginAt601, RulesAreNumbered};

/// Each rule has the number that reports and pages write. Definitions and clauses of all crates
/// name rules by the constants of [`rules`](crate::rules), and so this is where their numbers are
/// proved.
pub fn rules_are_numbered()
    ensures { RulesAreNumbered }
{}

/// The rules on documents and snapshots are 601 and greater ones.
pub fn documents_begin_at_601()
    ensures { DocumentsBeginAt601 }
{}
