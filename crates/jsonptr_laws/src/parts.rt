//! Parts of a pointer: each call that takes one apart has a unique result.
ghost use Rattle.std.specs.Prelude.{◌≡◌, ◌↔◌, ℕ, ◌<◌, List, [], Contains, length, slice_index, Option, None};
ghost use Rattle.std.specs.declared.ops.Bound.{Bound};
ghost use Rattle.jsonptr.specs.Text.{Text, text};
ghost use Rattle.jsonptr.specs.Diagnostic.{Mark};
ghost use Rattle.jsonptr.specs.Rendering.{IsRendered};
ghost use Rattle.jsonptr.specs.ParseError as parsing;
ghost use Rattle.jsonptr.specs.Token as token;
ghost use Rattle.jsonptr.specs.Index as index;
ghost use Rattle.jsonptr.specs.Resolve as resolve;
ghost use Rattle.jsonptr.specs.Assign as assign;
ghost use Rattle.jsonptr.specs.Ends.{IsFirstOf, IsLastOf};
ghost use Rattle.jsonptr.specs.Parts.{SplitsAt, IsLongestCommonPrefix};
ghost use Rattle.jsonptr.specs.Slice.{GivesRange, GivesFrom, GivesTo, GivesAll, GivesInclusive, GivesToInclusive, GivesBounds};
ghost use Rattle.jsonptr.specs.Pointer.{IsSplitAt, IsParentOf, IsWithoutPrefix, IsWithoutSuffix};
ghost use Rattle.jsonptr.specs.Slashes.{slash_offsets};
ghost use Rattle.jsonptr.specs.Types.ParseError.{ParseError};
ghost use Rattle.jsonptr.specs.Types.EncodingError.{EncodingError};
ghost use Rattle.jsonptr.specs.Types.ParseIndexError.{ParseIndexError};
ghost use Rattle.jsonptr.specs.declared.resolve.Error as resolving;
ghost use Rattle.jsonptr.specs.declared.assign.Error as assigning;
ghost use Rattle.jsonptr.specs.declared.pointer.Pointer.{Pointer};
ghost use Rattle.jsonptr_laws.specs.Answers.{SamePointer, SamePointers};

/// States that a list of tokens has one split at a byte of its text and one after a number of
/// tokens, and that two lists have one longest common prefix.
pub fn split_law()
    ensures split { (ts front rest other after : List Text) (offset : ℕ)
        → SplitsAt ts offset front rest → SplitsAt ts offset other after
        → (front ≡ other) × (rest ≡ after) }
    ensures position { (ts : List Text) (n : ℕ) (r q : Option (Pointer × Pointer))
        → IsSplitAt ts n r → IsSplitAt ts n q → SamePointers r q }
    ensures common { (ts us front other : List Text)
        → IsLongestCommonPrefix ts us front → IsLongestCommonPrefix ts us other → front ≡ other }
{}

/// States that a list of tokens has one first token, one last token and one parent, and that the
/// empty list has none of them.
pub fn front_and_back_law()
    ensures front { (ts : List Text) (r q : Option Text)
        → IsFirstOf ts r → IsFirstOf ts q → r ≡ q }
    ensures back { (ts : List Text) (r q : Option Text)
        → IsLastOf ts r → IsLastOf ts q → r ≡ q }
    ensures parent { (ts : List Text) (r q : Option Pointer)
        → IsParentOf ts r → IsParentOf ts q → SamePointer r q }
    ensures none { IsFirstOf [] None × IsLastOf [] None × IsParentOf [] None }
{}

/// States that a list of tokens without a prefix, or without a suffix, is one list. If the list
/// does not start or end so, there is none.
pub fn strip_law()
    ensures prefix { (ts us : List Text) (r q : Option Pointer)
        → IsWithoutPrefix ts us r → IsWithoutPrefix ts us q → SamePointer r q }
    ensures suffix { (ts us : List Text) (r q : Option Pointer)
        → IsWithoutSuffix ts us r → IsWithoutSuffix ts us q → SamePointer r q }
{}

/// States that the table of a list of tokens contains the offsets of all slashes of its text and no
/// others, in ascending order.
pub fn slashes_law()
    ensures slash { (ts : List Text) (o : ℕ)
        → Contains (slash_offsets ts) o ↔ (slice_index (text ts) o ≡ 47) }
    ensures ascending { (ts : List Text) (i j : ℕ) → i < j → j < length (slash_offsets ts)
        → slice_index (slash_offsets ts) i < slice_index (slash_offsets ts) j }
{}

/// States that a range of positions, or a pair of bounds, refers to one part of a list of tokens,
/// or to none.
pub fn range_law()
    ensures range { (a b : ℕ) (ts : List Text) (r q : Option Pointer)
        → GivesRange a b ts r → GivesRange a b ts q → SamePointer r q }
    ensures from { (a : ℕ) (ts : List Text) (r q : Option Pointer)
        → GivesFrom a ts r → GivesFrom a ts q → SamePointer r q }
    ensures to { (b : ℕ) (ts : List Text) (r q : Option Pointer)
        → GivesTo b ts r → GivesTo b ts q → SamePointer r q }
    ensures all { (ts : List Text) (r q : Option Pointer)
        → GivesAll ts r → GivesAll ts q → SamePointer r q }
    ensures inclusive { (a b : ℕ) (ts : List Text) (r q : Option Pointer)
        → GivesInclusive a b ts r → GivesInclusive a b ts q → SamePointer r q }
    ensures to_inclusive { (b : ℕ) (ts : List Text) (r q : Option Pointer)
        → GivesToInclusive b ts r → GivesToInclusive b ts q → SamePointer r q }
    ensures bounds { (a b : Bound ℕ) (ts : List Text) (r q : Option Pointer)
        → GivesBounds a b ts r → GivesBounds a b ts q → SamePointer r q }
{}

/// States that each error has one list of labels, or none, for each subject, whether the error is
/// about that subject or not.
pub fn label_law()
    ensures parsing { (e : ParseError) (len : ℕ) (r q : Option (List Mark))
        → parsing.IsParseErrorLabelled e len r → parsing.IsParseErrorLabelled e len q → r ≡ q }
    ensures encoding { (e : EncodingError) (len : ℕ) (r q : Option (List Mark))
        → token.IsEncodingErrorLabelled e len r → token.IsEncodingErrorLabelled e len q → r ≡ q }
    ensures index { (e : ParseIndexError) (s : Text) (r q : Option (List Mark))
        → index.IsIndexErrorLabelled e s r → index.IsIndexErrorLabelled e s q → r ≡ q }
    ensures resolving { (e : resolving.Error) (ts : List Text) (r q : Option (List Mark))
        → resolve.IsResolveErrorLabelled e ts r → resolve.IsResolveErrorLabelled e ts q → r ≡ q }
    ensures assigning { (e : assigning.Error) (ts : List Text) (r q : Option (List Mark))
        → assign.IsAssignErrorLabelled e ts r → assign.IsAssignErrorLabelled e ts q → r ≡ q }
{}

/// States that the report of each error is drawn as one text, on each subject.
pub fn drawn_law()
    ensures parsing { (e : ParseError) (len : ℕ) (shown s t : Text)
        → IsRendered (parsing.IsParseErrorLabelled e len) shown s
        → IsRendered (parsing.IsParseErrorLabelled e len) shown t → s ≡ t }
    ensures encoding { (e : EncodingError) (len : ℕ) (shown s t : Text)
        → IsRendered (token.IsEncodingErrorLabelled e len) shown s
        → IsRendered (token.IsEncodingErrorLabelled e len) shown t → s ≡ t }
    ensures index { (e : ParseIndexError) (subject shown s t : Text)
        → IsRendered (index.IsIndexErrorLabelled e subject) shown s
        → IsRendered (index.IsIndexErrorLabelled e subject) shown t → s ≡ t }
    ensures resolving { (e : resolving.Error) (ts : List Text) (shown s t : Text)
        → IsRendered (resolve.IsResolveErrorLabelled e ts) shown s
        → IsRendered (resolve.IsResolveErrorLabelled e ts) shown t → s ≡ t }
    ensures assigning { (e : assigning.Error) (ts : List Text) (shown s t : Text)
        → IsRendered (assign.IsAssignErrorLabelled e ts) shown s
        → IsRendered (assign.IsAssignErrorLabelled e ts) shown t → s ≡ t }
{
    label_law();
}
