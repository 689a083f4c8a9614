//! Laws of the errors of the calls.
ghost use Rattle.std.specs.Cmp.Lexicographic.{slice_cmp};
ghost use Rattle.std.specs.Float.{float_is_finite};
ghost use Rattle.std.specs.List.{Contains};
ghost use Rattle.std.specs.List.Sorted.{IsStrictlySortedBy};
ghost use Rattle.std.specs.Ordering.{nat_cmp};
ghost use Rattle.std.specs.Prelude.{◌≡◌, ◌≤◌, ◌⊎◌, ◌↔◌, ℕ, Bool, Float, IsTrue, IsUtf8, List, Option, Some, length, take};
ghost use Rattle.serde_json.specs.Data.{Data, float, number as json_number, string as json_string};
ghost use Rattle.serde_json.specs.Read.{read as read_text};
ghost use Rattle.serde_json.specs.View.{view};
ghost use Rattle.serde_json.specs.declared.value.Value.{Value as JsonValue};
ghost use Rattle.jsonptr.specs.Json.{nodes, HasSortedKeys};
ghost use Rattle.jsonptr.specs.Text.{Text, esc};
ghost use Rattle.jsonptr_c_calls.specs.declared.handle.Handle.{Handle};
ghost use Rattle.jsonptr_patch.specs.declared.operation.Operation.{Operation};
ghost use Rattle.jsonptr_c_calls.specs.Editing.{AssignsAtPointer, DeletesAtPointer, IsNotDeleted, IsTextNotAssigned};
ghost use Rattle.jsonptr_text_digits.specs.Digits.{KeepsDigits};
ghost use Rattle.jsonptr_text_digits.specs.declared.lost.Lost.{Lost};
ghost use Rattle.jsonptr_c_calls.specs.Exactness.{IsNotParsedBy, IsNotParsedExactly, IsNotPointedTo, LacksPointerOfFloat, LacksPointerOfLost, LacksPointerOfNumber, LosesDigitsOfFloat};
ghost use Rattle.jsonptr_c_calls.specs.Failures.{FailsOnHandle, IsNoPointer, IsNoToken, IsNotEscaped, IsNotParsed, IsNotPopped, IsNotPrinted, IsNotPushed, IsNotRead, IsNotWritten, IsOutOfMemory, IsTooShort, LacksRoomForFloat, SameStatus, Unfound};
ghost use Rattle.jsonptr_c_calls.specs.Fragments.{IsFragmentFor, IsNotFromFragment, IsNotToFragment, IsPointerIn, SameError};
ghost use Rattle.jsonptr_c_calls.specs.InTexts.{FindsTextIn, IsNotPrintedFrom, LacksRoomForFloatIn};
ghost use Rattle.jsonptr_c_calls.specs.Keys.{CopiesFirstKey, CopiesNextKey, HasKey, IsFirstKey, IsNextKey, IsNoFirstKey, IsNoNextKey, Visits};
ghost use Rattle.jsonptr_c_calls.specs.Setters.{AssignsInHandle, IsNumberNotAssigned, IsStringNotAssigned, IsValueNotAssigned};
ghost use Rattle.jsonptr_c_calls.specs.Locations.{IsNotLocated, IsNotPointedAt, LacksLocation, LacksPointerAt, LocatesInText, PointsAt};
ghost use Rattle.jsonptr_c_calls.specs.Messages.{HasMessageNumbers, error_message, message_of, message_room};
ghost use Rattle.jsonptr_c_calls.specs.Nodes.{FindsNode};
ghost use Rattle.jsonptr_c_calls.specs.Patches.{AppliesText, AppliesWithInverse, FailsList, IsDiffText, IsNotApplied, IsNotAppliedList, IsNotAppliedWithInverse, IsNotCompared, IsNotPatched, IsNotPatchText};
ghost use Rattle.jsonptr_c_calls.specs.Pointers.{Extends, HasCount, HasToken, Shortens};
ghost use Rattle.jsonptr_c_calls.specs.ErrorNumbers.{record_of};
ghost use Rattle.jsonptr_c_calls.specs.Values.{Changes, FindsString, FindsTextOf, HoldsWith, ReadsInto};
ghost use Rattle.jsonptr_c_calls.specs.declared.call_error.CallError.{CallError};
ghost use Rattle.jsonptr_c_calls.specs.declared.call_error.CallError.TheVariants.{NotLocated};
ghost use Rattle.jsonptr_c_calls.specs.declared.error_numbers.ErrorRecord.{ErrorRecord};
ghost use Rattle.jsonptr_c_calls.specs.declared.node.NodeInfo.{NodeInfo};
ghost use Rattle.jsonptr_text_resolve.specs.declared.format.Format.{Format};

use jsonptr::laws::parse_law;
use jsonptr_fragment::laws::{fragment_error_law, fragment_law};
use jsonptr_patch::laws::patch::comparing_patch_law;
use jsonptr_patch_document::laws::{inverse_depth_law, patch_document_law};

/// States that the message of the record of an error is the text of the error, and that no message is
/// longer than 200 bytes, also that of a record which is not of an error.
pub fn message_law()
    ensures text { (e : CallError) (bytes : List ℕ)
        → message_of (record_of e bytes) ≡ error_message e }
    ensures short { (r : ErrorRecord) → HasMessageNumbers r → length (message_of r) ≤ message_room }
{}

/// States that `first_key`, and then `next_key` with each key that is returned, visit each key of an
/// object once, in ascending order: each of these keys is fixed, they ascend, and they are the keys of
/// the object.
pub fn keys_law()
    ensures first { (d : Data) (k l : List ℕ) → IsFirstKey d k → IsFirstKey d l → k ≡ l }
    ensures next { (d : Data) (k m n : List ℕ) → IsNextKey d k m → IsNextKey d k n → m ≡ n }
    ensures ascending { (d : Data) (keys : List (List ℕ))
        → Visits d keys → IsStrictlySortedBy (slice_cmp nat_cmp) keys }
    ensures each { (d : Data) (keys : List (List ℕ)) (k : List ℕ)
        → Visits d keys → HasKey d k ↔ Contains keys k }
{}

/// States that what a call is passed fixes the status with which it fails, except that an allocation can
/// fail. It fixes the whole error of an operation of a patch, and of the calls on fragments.
///
/// For `patch` and `patch_with_inverse` it is stated of their text and of its operations, apart. Of
/// `lost_number`, `patch_with_inverse` and `pointer_at` a buffer that is too short is left out, and `diff`,
/// `message`, `quote` and the calls on an open text as a whole. The errors of `assign_integer`,
/// `assign_natural`, `assign_boolean` and `assign_null` are those of `assign_value`.
pub fn one_error_law()
    ensures count { (bytes : List ℕ) (e f : CallError)
        → IsNoPointer bytes e → IsNoPointer bytes f → SameStatus e f }
    ensures token { (bytes : List ℕ) (position room : ℕ) (e f : CallError)
        → IsNoToken bytes position room e → IsNoToken bytes position room f → SameStatus e f }
    ensures escape { (token : List ℕ) (room : ℕ) (e f : CallError)
        → IsNotEscaped token room e → IsNotEscaped token room f → SameStatus e f }
    ensures push { (n : ℕ) (buffer token : List ℕ) (e f : CallError)
        → IsNotPushed n buffer token e → IsNotPushed n buffer token f → SameStatus e f }
    ensures pop { (bytes : List ℕ) (e f : CallError)
        → IsNotPopped bytes e → IsNotPopped bytes f → SameStatus e f }
    ensures from_fragment { (fragment : List ℕ) (room : ℕ) (e f : CallError)
        → IsNotFromFragment fragment room e → IsNotFromFragment fragment room f → SameError e f }
    ensures to_fragment { (pointer : List ℕ) (room : ℕ) (e f : CallError)
        → IsNotToFragment pointer room e → IsNotToFragment pointer room f → SameError e f }
    ensures parse { (text : List ℕ) (e f : CallError)
        → IsNotParsed text e → IsNotParsed text f → SameStatus e f }
    ensures parse_exactly { (text : List ℕ) (e f : CallError)
        → IsNotParsedExactly text e → IsNotParsedExactly text f → SameStatus e f }
    ensures lost_number { (lost : Lost) (room : ℕ) (e f : CallError)
        → LacksPointerOfNumber lost room e → LacksPointerOfNumber lost room f → SameStatus e f }
    ensures get { (d : Handle) (format : Format) (bytes : List ℕ) (room : ℕ) (e f : CallError)
        → FailsOnHandle d (λ v. IsNotPrinted format (view v) bytes room e) e
        → FailsOnHandle d (λ v. IsNotPrinted format (view v) bytes room f) f → SameStatus e f }
    ensures string { (d : Handle) (bytes : List ℕ) (room : ℕ) (e f : CallError)
        → FailsOnHandle d (λ v. IsNotRead (view v) bytes room e) e
        → FailsOnHandle d (λ v. IsNotRead (view v) bytes room f) f → SameStatus e f }
    ensures node { (d : Handle) (bytes : List ℕ) (e f : CallError)
        → FailsOnHandle d (λ v. Unfound (view v) bytes e) e
        → FailsOnHandle d (λ v. Unfound (view v) bytes f) f → SameStatus e f }
    ensures assign { (text : List ℕ) (d : Handle) (bytes : List ℕ) (e f : CallError)
        → IsTextNotAssigned text d bytes e → IsTextNotAssigned text d bytes f
        → SameStatus e f }
    ensures assign_value { (d : Handle) (bytes : List ℕ) (e f : CallError)
        → IsValueNotAssigned d bytes e → IsValueNotAssigned d bytes f → SameStatus e f }
    ensures assign_string { (s : List ℕ) (d : Handle) (bytes : List ℕ) (e f : CallError)
        → IsStringNotAssigned s d bytes e → IsStringNotAssigned s d bytes f → SameStatus e f }
    ensures assign_number { (x : Float) (d : Handle) (bytes : List ℕ) (e f : CallError)
        → IsNumberNotAssigned x d bytes e → IsNumberNotAssigned x d bytes f → SameStatus e f }
    ensures first_key { (d : Handle) (bytes : List ℕ) (room : ℕ) (e f : CallError)
        → FailsOnHandle d (λ v. IsNoFirstKey (view v) bytes room e) e
        → FailsOnHandle d (λ v. IsNoFirstKey (view v) bytes room f) f → SameStatus e f }
    ensures next_key { (d : Handle) (bytes key : List ℕ) (room : ℕ) (e f : CallError)
        → IsNoNextKey d bytes key room e → IsNoNextKey d bytes key room f → SameStatus e f }
    ensures delete { (d : Handle) (bytes : List ℕ) (e f : CallError)
        → FailsOnHandle d (λ _. IsNotDeleted bytes e) e → FailsOnHandle d (λ _. IsNotDeleted bytes f) f
        → SameStatus e f }
    ensures patch { (text : List ℕ) (e f : CallError)
        → IsNotPatchText text e → IsNotPatchText text f → SameStatus e f }
    ensures apply { (d : Data) (os : List Operation) (e f : CallError)
        → IsNotAppliedList d os e → IsNotAppliedList d os f → SameStatus e f }
    ensures apply_with_inverse { (d : Data) (os : List Operation) (e f : CallError)
        → IsNotPatched d os e → IsNotPatched d os f → SameStatus e f }
    ensures failed { (d : Data) (os : List Operation) (e f : CallError)
        → FailsList (nodes d) os e → FailsList (nodes d) os f → e ≡ f }
    ensures resolve { (format : Format) (text bytes : List ℕ) (room : ℕ) (e f : CallError)
        → IsNotPrintedFrom format text bytes room e → IsNotPrintedFrom format text bytes room f
        → SameStatus e f }
    ensures locate { (text bytes : List ℕ) (e f : CallError)
        → IsNotLocated text bytes e → IsNotLocated text bytes f → SameStatus e f }
    ensures location { (text : List ℕ) (tokens : List Text) (e f : CallError)
        → LacksLocation text tokens e → LacksLocation text tokens f → SameStatus e f }
{
    parse_law();
    fragment_law();
    fragment_error_law();
    comparing_patch_law();
}

/// States that success and failure of a call exclude each other, apart from failed allocations and the
/// errors that a clause leaves open.
///
/// Each clause takes what the call states of a success and of an error, for the same arguments and a
/// buffer of the same length. `count` and `pop` allocate nothing, and have no error then. The document of
/// `patch_with_inverse` has sorted keys, as each that is read from a text. Left open is:
///
/// - `NoRoom` of `get` and `resolve` for a value that contains a float, since the text of a float is not
///   fixed; of `patch_with_inverse`, since the texts of its values are not fixed; and of `diff`, since it is
///   not fixed which difference it makes;
/// - `NotExact` of `parse_exactly` for a number that is read as a float;
/// - `NotExact` and `NoRoom` of `lost_number` for the number that is lost. If each number keeps its
///   digits (`none_lost`), it is read as a float;
/// - `NotLocated` of `locate` and `pointer_at`, and `NoValue` and `NoRoom` of `pointer_at`.
///
/// The clause `assign_value` is also that of the integers, natural numbers, booleans and null that are
/// assigned. `quote` and the calls on an open text have none.
pub fn not_both_law()
    ensures count { (pointer : List ℕ) (n : ℕ) (e : CallError)
        → IsUtf8 pointer → HasCount pointer n
        → IsNoPointer pointer e → ⊥ }
    ensures token { (pointer : List ℕ) (position : ℕ) (out : List ℕ) (n : ℕ) (e : CallError)
        → IsUtf8 pointer → HasToken pointer position (take n out)
        → IsNoToken pointer position (length out) e → IsOutOfMemory e }
    ensures escape { (token out : List ℕ) (n : ℕ) (e : CallError)
        → IsUtf8 token → take n out ≡ esc token
        → IsNotEscaped token (length out) e → IsOutOfMemory e }
    ensures push { (before : ℕ) (old new token : List ℕ) (n : ℕ) (e : CallError)
        → length new ≡ length old → before ≤ length old → IsUtf8 (take before old) → IsUtf8 token
        → Extends (take before old) token (take n new)
        → IsNotPushed before old token e → IsOutOfMemory e }
    ensures pop { (pointer : List ℕ) (n : ℕ) (e : CallError)
        → IsUtf8 pointer → Shortens pointer n
        → IsNotPopped pointer e → ⊥ }
    ensures from_fragment { (fragment out : List ℕ) (n : ℕ) (e : CallError)
        → IsUtf8 fragment → IsPointerIn fragment (take n out)
        → IsNotFromFragment fragment (length out) e → IsOutOfMemory e }
    ensures to_fragment { (pointer out : List ℕ) (n : ℕ) (e : CallError)
        → IsUtf8 pointer → IsFragmentFor pointer (take n out)
        → IsNotToFragment pointer (length out) e → IsOutOfMemory e }
    ensures parse { (text : List ℕ) (document : Handle) (e : CallError)
        → IsUtf8 text → ReadsInto text document
        → IsNotParsed text e → IsOutOfMemory e }
    ensures parse_exactly { (text : List ℕ) (document : Handle) (e : CallError)
        → IsUtf8 text → ReadsInto text document → KeepsDigits text
        → IsNotParsedExactly text e → IsOutOfMemory e ⊎ LosesDigitsOfFloat text e }
    ensures parse_with { (is_exact : Bool) (text : List ℕ) (document : Handle) (e : CallError)
        → IsUtf8 text → ReadsInto text document → (IsTrue is_exact → KeepsDigits text)
        → IsNotParsedBy is_exact text e
        → IsOutOfMemory e ⊎ (IsTrue is_exact × LosesDigitsOfFloat text e) }
    ensures get { (d : Handle) (format : Format) (pointer out : List ℕ) (n : ℕ) (e : CallError)
        → IsUtf8 pointer → HoldsWith d (λ v. FindsTextOf format (view v) pointer (take n out))
        → FailsOnHandle d (λ v. IsNotPrinted format (view v) pointer (length out) e) e
        → IsOutOfMemory e
        ⊎ HoldsWith d (λ v. LacksRoomForFloat format (view v) pointer (length out) e) }
    ensures string { (d : Handle) (pointer out : List ℕ) (n : ℕ) (e : CallError)
        → IsUtf8 pointer → HoldsWith d (λ v. FindsString (view v) pointer (take n out))
        → FailsOnHandle d (λ v. IsNotRead (view v) pointer (length out) e) e → IsOutOfMemory e }
    ensures node { (d : Handle) (pointer : List ℕ) (node : NodeInfo) (e : CallError)
        → IsUtf8 pointer → HoldsWith d (λ v. FindsNode (view v) pointer node)
        → FailsOnHandle d (λ v. Unfound (view v) pointer e) e → IsOutOfMemory e }
    ensures assign { (text : List ℕ) (old new : Handle) (pointer : List ℕ) (v : JsonValue) (e : CallError)
        → IsUtf8 text → IsUtf8 pointer → read_text text ≡ Some (view v)
        → Changes old (λ d n. AssignsAtPointer d pointer (view v) n) new
        → IsTextNotAssigned text old pointer e → IsOutOfMemory e }
    ensures assign_value { (old new : Handle) (pointer : List ℕ) (v : Data) (e : CallError)
        → IsUtf8 pointer → AssignsInHandle old pointer v new
        → IsValueNotAssigned old pointer e → IsOutOfMemory e }
    ensures assign_string { (s : List ℕ) (old new : Handle) (pointer : List ℕ) (e : CallError)
        → IsUtf8 s → IsUtf8 pointer → AssignsInHandle old pointer (json_string s) new
        → IsStringNotAssigned s old pointer e → IsOutOfMemory e }
    ensures assign_number { (x : Float) (old new : Handle) (pointer : List ℕ) (e : CallError)
        → IsTrue (float_is_finite x) → IsUtf8 pointer
        → AssignsInHandle old pointer (json_number (float x)) new
        → IsNumberNotAssigned x old pointer e → IsOutOfMemory e }
    ensures first_key { (d : Handle) (pointer out : List ℕ) (found : Option ℕ) (e : CallError)
        → IsUtf8 pointer → HoldsWith d (λ v. CopiesFirstKey (view v) pointer found out)
        → FailsOnHandle d (λ v. IsNoFirstKey (view v) pointer (length out) e) e → IsOutOfMemory e }
    ensures next_key { (d : Handle) (pointer key out : List ℕ) (found : Option ℕ) (e : CallError)
        → IsUtf8 pointer → IsUtf8 key
        → HoldsWith d (λ v. CopiesNextKey (view v) pointer key found out)
        → IsNoNextKey d pointer key (length out) e → IsOutOfMemory e }
    ensures delete { (old new : Handle) (pointer : List ℕ) (found : Bool) (e : CallError)
        → IsUtf8 pointer → Changes old (λ d n. DeletesAtPointer d pointer found n) new
        → FailsOnHandle old (λ v. IsNotDeleted pointer e) e → IsOutOfMemory e }
    ensures patch { (text : List ℕ) (old new : Handle) (e : CallError)
        → IsUtf8 text → Changes old (λ d n. AppliesText text d n) new
        → IsNotPatchText text e ⊎ IsNotApplied text old e → IsOutOfMemory e }
    ensures patch_with_inverse { (format : Format) (text : List ℕ) (old new : Handle) (out : List ℕ)
        (n : ℕ) (e : CallError)
        → IsUtf8 text → HoldsWith old (λ v. HasSortedKeys (view v))
        → Changes old (λ d m. AppliesWithInverse format text d m (take n out)) new
        → IsNotPatchText text e ⊎ IsNotAppliedWithInverse format text old (length out) e
        → IsOutOfMemory e ⊎ IsTooShort (length out) e }
    ensures diff { (format : Format) (old new : Handle) (out : List ℕ) (n : ℕ) (e : CallError)
        → HoldsWith old (λ v. HoldsWith new (λ w. IsDiffText format (view v) (view w) (take n out)))
        → FailsOnHandle old (λ v. FailsOnHandle new
        (λ w. IsNotCompared format (view v) (view w) (length out) e) e) e
        → IsOutOfMemory e ⊎ IsTooShort (length out) e }
    ensures resolve { (format : Format) (text pointer out : List ℕ) (n : ℕ) (e : CallError)
        → IsUtf8 text → IsUtf8 pointer → FindsTextIn format text pointer (take n out)
        → IsNotPrintedFrom format text pointer (length out) e
        → IsOutOfMemory e ⊎ LacksRoomForFloatIn format text pointer (length out) e }
    ensures lost_number { (text : List ℕ) (d : Data) (room : ℕ) (e : CallError)
        → IsUtf8 text → read_text text ≡ Some d
        → IsNotPointedTo text room e → IsOutOfMemory e ⊎ LacksPointerOfLost text room e }
    ensures none_lost { (text : List ℕ) (d : Data) (room : ℕ) (e : CallError)
        → IsUtf8 text → read_text text ≡ Some d → KeepsDigits text
        → IsNotPointedTo text room e → IsOutOfMemory e ⊎ LacksPointerOfFloat text room e }
    ensures locate { (text pointer : List ℕ) (start end : ℕ) (e : CallError)
        → IsUtf8 text → IsUtf8 pointer → LocatesInText text pointer start end
        → IsNotLocated text pointer e → IsOutOfMemory e ⊎ (e ≡ NotLocated) }
    ensures pointer_at { (text : List ℕ) (offset : ℕ) (out : List ℕ) (n : ℕ) (e : CallError)
        → IsUtf8 text → PointsAt text offset (take n out)
        → IsNotPointedAt text offset (length out) e
        → IsOutOfMemory e ⊎ ((e ≡ NotLocated) ⊎ LacksPointerAt text offset (length out) e) }
    ensures message { (r : ErrorRecord) (out : List ℕ) (n : ℕ) (e : CallError)
        → take n out ≡ message_of r
        → IsNotWritten (message_of r) (length out) e → IsOutOfMemory e }
{
    parse_law();
    fragment_law();
    fragment_error_law();
    patch_document_law();
    inverse_depth_law();
    comparing_patch_law();
}
