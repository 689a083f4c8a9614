//! Laws of edits in texts with comments. Each law is the contract of a function that does nothing.
ghost use Rattle.std.specs.Prelude.{◌≡◌, [], ◌++◌, List};
ghost use Rattle.jsonptr.specs.Text.{Text};
ghost use Rattle.jsonptr_comments.specs.Comments.{Piece, Pieces};
ghost use Rattle.jsonptr_comments.specs.Parts.{comments_of};
ghost use Rattle.jsonptr_patch.specs.declared.operation.Operation.{Operation};
ghost use Rattle.jsonptr_comments_step.specs.Edits.{IsOneEdit, IsRenaming};
ghost use Rattle.jsonptr_comments_step.specs.Kept.{kept_before, lost, kept_after, LeavesOut};
ghost use Rattle.jsonptr_comments_step.specs.Patches.{PatchEdits};

/// States that an edit keeps each comment, in its order, except those in the value that is replaced, or in the
/// child that is removed and beside it on its line; and that a text after a patch has the comments of the text
/// before it, in their order, with some left out. A text in which a member is renamed has all of them.
pub fn comments_law()
    ensures before { (text : Text) (tokens : List Text) (made : Text) (e : IsOneEdit text tokens made)
        (ps : List Piece) → Pieces text ps []
        → comments_of ps ≡ kept_before e ++ (lost e ++ kept_after e) }
    ensures after { (text : Text) (tokens : List Text) (made : Text) (e : IsOneEdit text tokens made)
        (ps : List Piece) → Pieces made ps []
        → comments_of ps ≡ kept_before e ++ kept_after e }
    ensures patch { (text made : Text) (os : List Operation) (ps qs : List Piece)
        → PatchEdits text os made → Pieces text ps [] → Pieces made qs []
        → LeavesOut (comments_of ps) (comments_of qs) }
    ensures renamed { (text : Text) (tokens : List Text) (made : Text) (ps qs : List Piece)
        → IsRenaming text tokens made → Pieces text ps [] → Pieces made qs []
        → comments_of qs ≡ comments_of ps }
{}
