//! Laws of fragments. Each law is the contract of a function that does nothing.
ghost use Rattle.std.specs.Prelude.{◌≡◌, ◌<◌, ◌⊎◌, ◌∷◌, List, All, IsTrue, IsUtf8};
ghost use Rattle.percent_encoding.specs.Percent.{percent_decode};
ghost use Rattle.jsonptr.specs.Text.{Text, text};
ghost use Rattle.jsonptr_fragment.specs.Fragment.{is_fragment_byte, fragment_of, IsFragment, IsFragmentOf};
ghost use Rattle.jsonptr_fragment.specs.FragmentError.{IsFragmentErrorOf};
ghost use Rattle.jsonptr_fragment.specs.declared.error.FragmentError.{FragmentError};

/// States that what [`to_fragment`](crate::to_fragment) writes is the fragment of its pointer, and
/// that a text is the fragment of at most one pointer. So
/// [`from_fragment`](crate::from_fragment) reads back the pointer that was written.
///
/// Two fragments of one pointer differ only in what is percent-encoded, since both decode to a `#` and
/// the pointer's text, by the URL Standard's own definition. A fragment has no bytes except those that
/// RFC 3986 lists, and `%`.
pub fn fragment_law()
    ensures written { (ts : List Text) → IsUtf8 (text ts) → All (λ b. b < 256) (text ts)
        → IsFragmentOf (fragment_of ts) ts }
    ensures one_pointer { (s : Text) (ts us : List Text)
        → IsFragmentOf s ts → IsFragmentOf s us → ts ≡ us }
    ensures decoded { (s : Text) (ts : List Text)
        → IsFragmentOf s ts → percent_decode s ≡ 35 ∷ text ts }
    ensures bytes { (s : Text) → IsFragment (35 ∷ s)
        → All (λ b. IsTrue (is_fragment_byte b) ⊎ (b ≡ 37)) s }
{}

/// States that a text has at most one error, and that no text is the fragment of a pointer and also
/// has an error. So [`from_fragment`](crate::from_fragment) returns an error only for a text that has
/// none of the pointers, and always the same.
pub fn fragment_error_law()
    ensures one_error { (s : Text) (e f : FragmentError)
        → IsFragmentErrorOf s e → IsFragmentErrorOf s f → e ≡ f }
    ensures not_both { (s : Text) (ts : List Text) (e : FragmentError)
        → IsFragmentOf s ts → IsFragmentErrorOf s e → ⊥ }
{}
