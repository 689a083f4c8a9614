//! Laws of what the commands print. Each law is the contract of a function that does nothing.
//!
//! - [`one_error`]: a task has at most one error on a text.
//! - [`expansion`]: what an assignment creates, and [`transfer`]: what a copy and a removal make.
ghost use Rattle.std.specs.Prelude.{◌≡◌, ◌≢◌, ◌⊎◌, ◌↔◌, Bool, true, false, ℕ, List, [], ◌∷◌, ◌++◌, length, Some, string_bytes};
ghost use Rattle.std.specs.Str.{IsUtf8};
ghost use Rattle.std.specs.declared.alloc.AllocError.{AllocError};
ghost use Rattle.serde_json.specs.Data.{Data};
ghost use Rattle.serde_json.specs.Read.{read};
ghost use Rattle.serde_json.specs.View.{view};
ghost use Rattle.jsonptr.specs.Text.{Text};
ghost use Rattle.jsonptr.specs.Json.{nodes, HasSortedKeys};
ghost use Rattle.jsonptr.specs.Node.{NodeMap};
ghost use Rattle.jsonptr_io.specs.Lines.{AreLines};
ghost use Rattle.jsonptr_patch.specs.Inverse.{HasDeepNodeBefore};
ghost use Rattle.jsonptr_patch.specs.Patching.{Patches};
ghost use Rattle.jsonptr_patch.specs.declared.comparison.Comparison.TheVariants.{Numeric};
ghost use Rattle.jsonptr_patch.specs.declared.operation.Operation.{Operation};
ghost use Rattle.jsonptr_patch_document.specs.Document.{IsPatch, IsNoPatch};
ghost use Rattle.jsonptr_patch_document.specs.declared.error.PatchDocumentError.{PatchDocumentError};
ghost use Rattle.jsonptr_text_paths.specs.declared.listing.Listed.TheVariants.{AllNodes};
ghost use Rattle.jsonptr_text_paths.specs.declared.build.LineError.{LineError};
ghost use Rattle.jptr_tasks.specs.Cutting.{EndsInLineFeed, InputGives, IsShifted};
ghost use Rattle.jptr_tasks.specs.Documents.{TaskFailsOn};
ghost use Rattle.jptr_tasks.specs.LineResults.{IsLineFault, LinesGive, StopsRun};
ghost use Rattle.jptr_tasks.specs.Differences.{IsDifference};
ghost use Rattle.jptr_tasks.specs.Inverting.{IsInverse, TakesPatchBack, FailsToInvert};
ghost use Rattle.jptr_tasks.specs.Layouts.{ShowsInLayout, ReadsBack};
ghost use Rattle.jptr_tasks.specs.Paths.{ListsText, BuildsText, FailsToBuild};
ghost use Rattle.jptr_tasks.specs.Replacement.{AtEachMoment, IsDurable, IsGuarded, IsReplaced};
ghost use Rattle.jptr_tasks.specs.Results.{EditsInLayout, FailsToEdit, PatchesBytesInLayout, FailsToPatch};
ghost use Rattle.jptr_tasks.specs.declared.difference.PrintedPatch.{PrintedPatch};
ghost use Rattle.jptr_tasks.specs.declared.task_error.TaskError.{TaskError};
ghost use Rattle.jptr_tasks.specs.declared.task_error.TaskError.TheVariants.{BadLine, NotInPlace, PatchTooDeep, NotJson, Memory};
ghost use Rattle.jptr_tasks.specs.declared.layout.Layout.{Layout};
ghost use Rattle.jptr_tasks.specs.declared.line.LineTask.{LineTask};
ghost use Rattle.jptr_tasks.specs.declared.replacement.Event.TheVariants.{Create, Look, Remove, Rename, Sync, SyncFolder, TakeRights, Write};
ghost use Rattle.jsonptr_text_value.specs.Operations.{operations_in};
ghost use Rattle.jsonptr_text_value.specs.declared.patch_text.PatchText.{PatchText};
ghost use Rattle.jsonptr_text_edit.specs.Edits.{EditsText};
ghost use Rattle.jptr_tasks.specs.declared.task.Task.{Task};
ghost use Rattle.jptr_tasks.specs.declared.task.Task.TheVariants as task;
ghost use Rattle.jsonptr_text_edit.specs.declared.edit.Edit.TheVariants.{Patch};
ghost use Rattle.jptr_tasks.specs.declared.layout.Layout.TheVariants.{Kept, Raw};

pub mod expansion;
pub mod one_error;
pub mod transfer;

use jsonptr_patch::laws::comparison::test_comparison_law;
use jsonptr_patch::laws::patch::comparing_patch_law;
use jsonptr_patch_document::laws::{patch_document_law, writing_law};
use jsonptr_text_paths::laws::round_trip_law;

/// States that what is built from the lines of all nodes of a text is the document of that text.
///
/// So `from-paths` after `paths --all` prints the document, and no line is at fault.
pub fn paths_law()
    ensures printed { (layout : Layout) (bytes : List ℕ) (lines out : Text)
        → ListsText AllNodes bytes lines
        → BuildsText layout lines out
        → (d : Data) × (shown : Text) × (read bytes ≡ Some d) × ShowsInLayout layout d shown
        × ReadsBack layout d shown
        × (out ≡ shown ++ 10 ∷ []) }
    ensures never_refused { (bytes : List ℕ) (lines : Text) (number : ℕ) (e : LineError)
        → ListsText AllNodes bytes lines
        → FailsToBuild lines (BadLine number e)
        → ⊥ }
{
    round_trip_law();
}

/// States that the result of an edit by a patch is that of its document (`printed`), and so is its error
/// (`refused`).
pub fn patch_law()
    ensures printed { (text out : Text) (patch : PatchText) (layout : Layout)
        → EditsInLayout text (Patch patch) layout out
        → PatchesBytesInLayout text (view patch.document) layout out }
    ensures refused { (text : Text) (patch : PatchText) (layout : Layout) (e : TaskError)
        → FailsToEdit text (Patch patch) layout e
        → FailsToPatch text (view patch.document) layout e }
{}

/// States what `patch` does after `diff`, as texts.
///
/// Let `a` and `b` be texts of documents, and let the text of their difference be applied to `a`. Then
/// the text that is printed reads as the document of `b`. In the layout
/// [`Layout::Raw`](crate::layout::Layout::Raw) a string is printed without its quotes. There is no error except
/// a failed allocation, and [`TaskError::NotInPlace`](crate::task_error::TaskError::NotInPlace) in the layout
/// [`Layout::Kept`](crate::layout::Layout::Kept).
pub fn printed_difference_law()
    ensures applied { (a b out : Text) (n m p : Data) (style layout : Layout) (d : PrintedPatch)
        → read a ≡ Some n → read b ≡ Some m
        → IsDifference (nodes n) (nodes m) style d
        → read (string_bytes d.text) ≡ Some p
        → PatchesBytesInLayout a p layout out
        → ReadsBack layout m out }
    ensures never_refused { (a b : Text) (n m p : Data) (style layout : Layout) (d : PrintedPatch) (e : TaskError)
        → read a ≡ Some n → read b ≡ Some m
        → IsDifference (nodes n) (nodes m) style d
        → read (string_bytes d.text) ≡ Some p
        → FailsToPatch a p layout e
        → ((f : AllocError) × (e ≡ Memory f)) ⊎ ((layout ≡ Kept) × (e ≡ NotInPlace)) }
{
    patch_document_law();
    writing_law();
    jsonptr_patch_diff::laws::difference_law();
    test_comparison_law();
    comparing_patch_law();
}

/// States what an edit of a text by a patch makes, where the patch turns the document of the text into another one:
/// the new text reads as that document. So an edit by [`merge_patch_edit`](crate::merge::merge_patch_edit) or
/// [`merge_edit`](crate::merge::merge_edit) makes the merge.
pub fn merge_edit_law()
    ensures { (text new : Text) (d e : Data) (m : NodeMap) (p : PatchText)
        → read text ≡ Some d → read new ≡ Some e
        → Patches (nodes d) (operations_in p.operations.items) m
        → EditsText text (Patch p) new
        → nodes e ≡ m }
{
    test_comparison_law();
    comparing_patch_law();
}

/// States of which documents the inverse of a patch is too deep to be printed, for a patch document whose keys
/// are sorted, as those of one that is read.
///
/// - A node that nests deeper than 125 is in the document before an operation, or in what a move has left of it.
/// - The patch then has no inverse that is printed.
pub fn inverse_depth_law()
    ensures deep { (text : Text) (patch : Data)
        → HasSortedKeys patch → FailsToInvert text patch PatchTooDeep
        → (d : Data) × (os : List Operation) × (read text ≡ Some d) × IsPatch patch os
        × HasDeepNodeBefore Numeric (nodes d) os 125 }
    ensures not_both { (text : Text) (patch : Data) (u : PrintedPatch)
        → HasSortedKeys patch → TakesPatchBack text patch u → FailsToInvert text patch PatchTooDeep → ⊥ }
{
    patch_document_law();
    jsonptr_patch_document::laws::inverse_depth_law();
}

/// States what `patch` does with the inverse of a patch, as texts.
///
/// Let a patch be applied to the text `a`, and let its inverse be applied to the text that is printed.
/// Then the text that is printed reads as the document of `a`. There is no error except a failed allocation,
/// and [`TaskError::NotInPlace`](crate::task_error::TaskError::NotInPlace) in the layout
/// [`Layout::Kept`](crate::layout::Layout::Kept). In the layout [`Layout::Raw`](crate::layout::Layout::Raw) a
/// string is printed without its quotes, so it is not JSON: the first of the two is in another layout.
pub fn printed_inverse_law()
    ensures undone { (a b out : Text) (d patch back : Data) (style first layout : Layout) (u : PrintedPatch)
        → read a ≡ Some d
        → PatchesBytesInLayout a patch first b → first ≢ Raw
        → IsInverse a patch style u → read (string_bytes u.text) ≡ Some back
        → PatchesBytesInLayout b back layout out
        → ReadsBack layout d out }
    ensures never_refused { (a b : Text) (d patch back : Data) (style first layout : Layout) (u : PrintedPatch) (e : TaskError)
        → read a ≡ Some d
        → PatchesBytesInLayout a patch first b → first ≢ Raw
        → IsInverse a patch style u → read (string_bytes u.text) ≡ Some back
        → FailsToPatch b back layout e
        → ((f : AllocError) × (e ≡ Memory f)) ⊎ ((layout ≡ Kept) × (e ≡ NotInPlace)) }
{
    patch_document_law();
    comparing_patch_law();
    printed_difference_law();
}

/// States that an input may be cut after a line feed, and each part be run by itself.
///
/// Let a first part be empty or end in a line feed. What a run over the first part prints, and then what
/// a run over the second part prints, is what a run over the whole prints. So it is with the reports,
/// if the number of lines of the first part is added to each line number of the second (`joined`).
/// Conversely, what a run over the whole prints and reports comes from runs over the parts so
/// (`parted`). The whole has a line at fault exactly if one of the parts has one (`quiet`).
///
/// It is about runs that go on to the last line: a strict run that stops reads no part after it.
pub fn cut_law()
    ensures joined { (run : LineTask) (first second : List ℕ) (ls : List Text)
        (o1 r1 o2 r2 : Text)
        → EndsInLineFeed first → AreLines first ls
        → LinesGive run 1 ls o1 r1 → InputGives run second o2 r2
        → (later : Text) × IsShifted (string_bytes run.name) (length ls) r2 later
        × InputGives run (first ++ second) (o1 ++ o2) (r1 ++ later) }
    ensures parted { (run : LineTask) (first second : List ℕ) (ls : List Text) (out err : Text)
        → EndsInLineFeed first → AreLines first ls → InputGives run (first ++ second) out err
        → (o1 r1 o2 r2 later : Text)
        × LinesGive run 1 ls o1 r1 × InputGives run second o2 r2
        × IsShifted (string_bytes run.name) (length ls) r2 later
        × (out ≡ o1 ++ o2) × (err ≡ r1 ++ later) }
    ensures quiet { (name : Text) (k : ℕ) (err later : Text)
        → IsShifted name k err later → (err ≡ []) ↔ (later ≡ []) }
{}

/// States in which order a call looks for errors that a text and a patch document both have.
///
/// Bytes that are not UTF-8 are not JSON, whatever else is wrong (`bytes`, `line`). Of a text, the patch
/// document is looked at first: if it is not a patch, no error says that the text is not JSON.
pub fn order_law()
    ensures bytes { (task : Task) (layout : Layout) (bytes : List ℕ) (e : TaskError)
        → (IsUtf8 bytes → ⊥) → (StopsRun e → ⊥) → TaskFailsOn task layout bytes e → e ≡ NotJson }
    ensures line { (task : Task) (layout : Layout) (l : Text) (e : TaskError)
        → (IsUtf8 l → ⊥) → IsLineFault task layout l e → e ≡ NotJson }
    ensures patch { (text : Text) (patch : Data) (layout : Layout) (e : PatchDocumentError)
        → IsNoPatch patch e → FailsToPatch text patch layout NotJson → ⊥ }
{
    patch_document_law();
}

/// States which calls do not replace a file, the latest call first.
///
/// Calls that write the text twice, not at all or in part can leave another text (`twice`, `not_at_all`,
/// `in_part`), and so can any write after the rename (`late`). If the temporary file was removed before
/// the rename, nothing can be read after it (`removed`). If it was not synced, a crash may leave any text
/// (`not_synced`). Rights that were taken before it was created guard nothing (`open_to_all`).
pub fn replacement_law()
    ensures twice { IsReplaced (Rename true ∷ Look true ∷ Sync true ∷ TakeRights true
        ∷ Write true ∷ Write true ∷ Create true ∷ []) → ⊥ }
    ensures not_at_all { IsReplaced (Rename true ∷ Look true ∷ Sync true ∷ TakeRights true
        ∷ Create true ∷ []) → ⊥ }
    ensures in_part { IsReplaced (Rename true ∷ Look true ∷ Sync true ∷ TakeRights true
        ∷ Write false ∷ Create true ∷ []) → ⊥ }
    ensures late { (done : Bool) → IsReplaced (Write done ∷ Rename true ∷ Look true ∷ Sync true
        ∷ TakeRights true ∷ Write true ∷ Create true ∷ []) → ⊥ }
    ensures removed { AtEachMoment (Rename true ∷ Remove true ∷ Look true ∷ Sync true
        ∷ TakeRights true ∷ Write true ∷ Create true ∷ []) → ⊥ }
    ensures not_synced { IsDurable (SyncFolder true ∷ Rename true ∷ Look true ∷ TakeRights true
        ∷ Write true ∷ Create true ∷ []) → ⊥ }
    ensures open_to_all { IsGuarded (Rename true ∷ Look true ∷ Sync true ∷ Write true
        ∷ Create true ∷ TakeRights true ∷ []) → ⊥ }
{}
