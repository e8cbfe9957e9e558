//! Laws of the spelling of shares. The function does nothing: its contract is the law.
ghost use Rattle.std.specs.Prelude.{◌≡◌};
ghost use Rattle.share_model.specs.declared.share.Share.{Share};
ghost use Rattle.share_model.specs.Shares.{IsShare};
ghost use Rattle.share_file.specs.Spelling.{share_spelling};

/// A share has one spelling, and no other share has it.
pub fn share_spelling_laws()
    ensures one { (s t : Share) → IsShare s → IsShare t → share_spelling s ≡ share_spelling t → s ≡ t }
{}
