//! Laws of the facts.
ghost use Rattle.lsp_facts.specs.Members.{BadParamsHaveMember, BadResultHasMember};
ghost use Rattle.lsp_facts.specs.TwoTexts.{TextsDiffer};
ghost use Rattle.lsp_facts.specs.Whole.{WholeTextsAreJson};

/// Of a message whose params do not have the shape of its method, a member is named.
pub fn bad_params_have_a_member()
    ensures { BadParamsHaveMember }
{}

/// Of a result of `initialize`, a member is named just where it does not have its shape.
pub fn bad_result_has_a_member()
    ensures { BadResultHasMember }
{}

/// Where a call on a document breaks 608 or 702, there are two texts, and they differ.
pub fn compared_texts_differ()
    ensures { TextsDiffer }
{}

/// The text whose length is named for a content that is not JSON is a JSON text.
pub fn whole_texts_are_json()
    ensures { WholeTextsAreJson }
{}
