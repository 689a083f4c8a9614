//! Laws of patch documents. Each law is the contract of a function that does nothing.
ghost use Rattle.std.specs.Prelude.{◌≡◌, ◌↔◌, ℕ, ◌+◌, ◌<◌, ◌≤◌, List, All, IsTrue, Some};
ghost use Rattle.serde_json.specs.Data.{Data, depth};
ghost use Rattle.jsonptr.specs.Documents.{IsDocument};
ghost use Rattle.jsonptr.specs.Json.{HasSortedKeys};
ghost use Rattle.jsonptr.specs.Node.{NodeMap};
ghost use Rattle.jsonptr.specs.ParseError.{IsParseErrorOf};
ghost use Rattle.jsonptr.specs.Text.{Text};
ghost use Rattle.jsonptr.specs.Types.ParseError.{ParseError};
ghost use Rattle.jsonptr_patch.specs.Inverse.{TakesAllBackBy, HasDeepNodeBefore};
ghost use Rattle.jsonptr_patch.specs.Order.{OperationHasSortedKeys};
ghost use Rattle.jsonptr_patch.specs.Patching.{Patches, PatchesBy};
ghost use Rattle.jsonptr_patch.specs.declared.comparison.Comparison.{Comparison};
ghost use Rattle.jsonptr_patch.specs.declared.operation.Operation.{Operation};
ghost use Rattle.jsonptr_patch_document.specs.Object.{IsOperationObject, IsNoOperationObject};
ghost use Rattle.jsonptr_patch_document.specs.Document.{IsPatch, IsNoPatch};
ghost use Rattle.jsonptr_patch_document.specs.Same.{IsSameOperation, AreSameOperations};
ghost use Rattle.jsonptr_patch_document.specs.Writing.{document_of, ValueHasSortedKeys};
ghost use Rattle.jsonptr_patch_document.specs.Faulty.{faulty_text};
ghost use Rattle.jsonptr_patch_document.specs.declared.error.PatchDocumentError.{PatchDocumentError};
ghost use Rattle.jsonptr_patch_document.specs.declared.error.PatchDocumentError.TheVariants.{NotPointer};
ghost use Rattle.jsonptr_patch_document.specs.declared.member.Member.{Member};

use crate::error::PatchDocumentError;
use jsonptr::laws::parse_law;
use jsonptr_patch::laws::inverse::inverse_law;

/// States that an object is at most one operation, that at most one error reports why it is not an
/// operation, and that it never is an operation and also has such an error.
pub fn operation_object_law()
    ensures one_operation { (d : Data) (o p : Operation)
        → IsOperationObject d o → IsOperationObject d p → IsSameOperation o p }
    ensures one_error { (d : Data) (k : ℕ) (e f : PatchDocumentError)
        → IsNoOperationObject d k e → IsNoOperationObject d k f → e ≡ f }
    ensures not_both { (d : Data) (k : ℕ) (o : Operation) (e : PatchDocumentError)
        → IsOperationObject d o → IsNoOperationObject d k e → ⊥ }
{
    parse_law();
}

/// States that a document is at most one patch, that at most one error reports why it is not a patch,
/// and that it never is a patch and also has such an error.
///
/// The values of two lists of operations that a document is may be kept in different memory. Such
/// lists make the same map of each document, however their tests compare, and what takes one back takes the other
/// one back. The keys of their values are sorted if those of the patch document are.
pub fn patch_document_law()
    ensures one_patch { (d : Data) (os ps : List Operation)
        → IsPatch d os → IsPatch d ps → AreSameOperations os ps }
    ensures one_error { (d : Data) (e f : PatchDocumentError)
        → IsNoPatch d e → IsNoPatch d f → e ≡ f }
    ensures not_both { (d : Data) (os : List Operation) (e : PatchDocumentError)
        → IsPatch d os → IsNoPatch d e → ⊥ }
    ensures same_effect { (n m : NodeMap) (os ps : List Operation)
        → AreSameOperations os ps → Patches n os m → Patches n ps m }
    ensures same_effect_comparing { (c : Comparison) (n m : NodeMap) (os ps : List Operation)
        → AreSameOperations os ps → PatchesBy c n os m → PatchesBy c n ps m }
    ensures same_inverse { (c : Comparison) (n : NodeMap) (os ps back : List Operation)
        → AreSameOperations os ps → TakesAllBackBy c n os back → TakesAllBackBy c n ps back }
    ensures sorted { (d : Data) (os : List Operation)
        → HasSortedKeys d → IsPatch d os → All OperationHasSortedKeys os }
{
    operation_object_law();
}

/// States that what [`write_patch`](crate::write_patch) writes for a list of operations is the patch
/// of these operations. So a document that is read, written and read again has the same
/// operations. If the keys of the values are sorted, so are those of the document.
pub fn writing_law()
    ensures read { (os : List Operation) → IsPatch (document_of os) os }
    ensures round_trip { (d : Data) (os ps : List Operation)
        → IsPatch d os → IsPatch (document_of os) ps → AreSameOperations os ps }
    ensures sorted { (os : List Operation)
        → All ValueHasSortedKeys os → HasSortedKeys (document_of os) }
{
    patch_document_law();
}

/// States how deep the document of what takes a patch back nests, where the keys of its values are sorted.
///
/// - It is deeper than `k + 2` only if some node is deeper than `k` in the document before an operation, or in what
///   a move has left of that document.
/// - It is one depth, whatever takes the patch back.
pub fn inverse_depth_law()
    ensures deep { (c : Comparison) (n : NodeMap) (os back : List Operation) (k : ℕ)
        → TakesAllBackBy c n os back → All OperationHasSortedKeys back
        → k + 2 < depth (document_of back) → HasDeepNodeBefore c n os k }
    ensures same { (c : Comparison) (n : NodeMap) (os back others : List Operation) (k : ℕ)
        → IsDocument n → TakesAllBackBy c n os back → TakesAllBackBy c n os others
        → All OperationHasSortedKeys others
        → depth (document_of back) ≤ k + 2 → depth (document_of others) ≤ k + 2 }
{
    inverse_law();
}

/// States that the text which [`PatchDocumentError::pointer_text`] returns for the error of a document
/// is the one that is not a pointer.
pub fn pointer_text_law()
    ensures { (d : Data) (i : ℕ) (m : Member) (cause : ParseError)
        → IsNoPatch d (NotPointer i m cause)
        → (s : Text) × (faulty_text d (NotPointer i m cause) ≡ Some s) × IsParseErrorOf s cause }
{}

/// Two errors of a patch document are equal exactly if they are the same error with the same fields.
pub fn patch_document_error_law()
    ensures { (e f : PatchDocumentError)
        → IsTrue (⟦<PatchDocumentError as PartialEq>⟧.eq e f) ↔ (e ≡ f) }
{}
