//! What is done with the documents of lines.

ghost use Rattle.std.specs.Prelude.{◌≡◌, List, [], ◌∷◌, ◌++◌, OnErr, OnOk};
ghost use Rattle.std.proofs.Common.{sym};
ghost use Rattle.std.proofs.lemmas.List.{append-nil};
ghost use Rattle.nbfx_values.specs.declared.content.Item.{Item};

use nbfx_values::{Doc, Docs};
use unit_streams::Memory;

/// Takes the documents of lines, each as soon as it is read.
pub trait Keeper: Drop {
    /// Since it was as `first`, it has kept these documents, in this order; it is as `keeper` now.
    ghost kept: { (first : Self) → (documents : List (List Item)) → (keeper : Self) → Type 0 };

    /// Takes one document more, and may give one back whose memory the reader may use again. It
    /// fails without memory, and has kept then what it had kept before.
    fn keep(&mut self, doc: Doc) -> Result<Option<Doc>, Memory>
        ensures kept { (first : Self) (documents : List (List Item)) → kept first documents self.old
            → OnOk result (kept first (documents ++ doc ∷ []) self.new) }
        ensures failed { (first : Self) (documents : List (List Item))
            → kept first documents self.old → OnErr result (kept first documents self.new) };

    /// At the start nothing has been kept.
    ghost starts: { (first : Self) → kept first [] first };
}

/// A list keeps all.
impl Keeper for Docs {
    ghost kept = { λ first documents docs. docs ≡ first ++ documents };

    ghost starts = { λ first. sym (append-nil first) };

    fn keep(&mut self, doc: Doc) -> Result<Option<Doc>, Memory> {
        self.push(doc)?;
        Ok(None)
    }
}
