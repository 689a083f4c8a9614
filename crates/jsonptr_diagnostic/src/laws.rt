//! Laws of rendered reports.
ghost use Rattle.std.specs.Prelude.{◌≡◌, ◌⊎◌, ◌+◌, ◌<◌, ◌≤◌, ℕ, List, ◌∷◌, ◌++◌, All, length, Option};
ghost use Rattle.std.specs.Char.{len_utf8};
ghost use Rattle.jsonptr_grammar.specs.Text.{Text};
ghost use Rattle.jsonptr_diagnostic.specs.Diagnostic.{Mark};
ghost use Rattle.jsonptr_diagnostic.specs.Rendering.{IsPrintable, shown_for, shown, size, column, carets, label_line, drawn, IsRendered};

use crate::diagnostic::Diagnostic;

/// A rendered report contains only printable characters and the line feeds between its lines. A
/// text of printable characters is shown unchanged.
pub fn shown_law()
    ensures text { (cs : List ℕ) → All IsPrintable (shown cs) }
    ensures line { (cs : List ℕ) (label : Mark) → All IsPrintable (label_line cs label) }
    ensures all { (cs : List ℕ) (labels : List Mark)
        → All (λ c. IsPrintable c ⊎ (c ≡ 10)) (drawn cs labels) }
    ensures plain { (cs : List ℕ) → All IsPrintable cs → shown cs ≡ cs }
{}

/// Carets start in the column of the character that contains the label's offset, or after the text.
/// They cover the columns of the span, at least one.
pub fn place_law()
    ensures within { (front rest : List ℕ) (c k : ℕ)
        → k < len_utf8 c
        → column (size front + k) (front ++ c ∷ rest) ≡ length (shown front) }
    ensures past { (cs : List ℕ) (o : ℕ) → size cs ≤ o → column o cs ≡ length (shown cs) }
    ensures under { (front rest under : List ℕ) (c : ℕ)
        → carets (size front) (size (c ∷ under)) (front ++ (c ∷ under ++ rest))
        ≡ length (shown (c ∷ under)) }
    ensures inside { (front rest : List ℕ) (c k n : ℕ)
        → 0 < n
        → k + n ≤ len_utf8 c
        → carets (size front + k) n (front ++ c ∷ rest) ≡ length (shown_for c) }
    ensures none { (cs : List ℕ) (o : ℕ) → carets o 0 cs ≡ 1 }
    ensures none_past { (cs : List ℕ) (o n : ℕ) → size cs ≤ o → carets o n cs ≡ 1 }
{}

/// A report is drawn as one text, if its error has one list of labels, or none, on the subject.
pub fn rendered_law<T: Diagnostic>()
    ensures { (error : T) (subject : T.Subject) (shown s t : Text)
        → ((r q : Option (List Mark))
        → T.labels_gives error subject r → T.labels_gives error subject q → r ≡ q)
        → IsRendered (T.labels_gives error subject) shown s
        → IsRendered (T.labels_gives error subject) shown t
        → s ≡ t }
{}
