//! Lines as a whole text, and one after another.
ghost use Rattle.std.specs.Prelude.{◌≡◌, ◌↔◌, ℕ, List, [], ◌∷◌, ◌++◌, Some, All};
ghost use Rattle.jsonptr_io.specs.Lines.{AreLines, IsNextLine, IsOneLine};
ghost use Rattle.jsonptr_io.specs.Streams.{AppendsPrefix};
ghost use Rattle.jsonptr_io.specs.Whole.{IsBroken};
ghost use Rattle.jsonptr_io.specs.declared.read.Ending.TheVariants.{Break, Input, NoLine};

/// States what the lines of an input are, by the whole text.
///
/// Some texts are its lines exactly if none contains a line feed, and together, with a line feed after
/// each, they are the input. The last one may lack the line feed, if it is not empty.
pub fn whole_law()
    ensures { (bytes : List ℕ) (ls : List (List ℕ))
        → AreLines bytes ls ↔ (All IsOneLine ls × IsBroken bytes ls) }
{}

/// States that [`next_line`](crate::read::next_line), called until it returns
/// [`Ending::NoLine`](crate::read::Ending::NoLine), reads the lines of the input in order.
///
/// After a line with a line break, the lines of the input are that line and those of what is left. A
/// line without one is the last line.
pub fn next_line_law()
    ensures broken { (bytes rest l : List ℕ) (ls : List (List ℕ))
        → IsNextLine (Some bytes) (Some rest) l Break → (AreLines bytes (l ∷ ls) ↔ AreLines rest ls) }
    ensures last { (bytes rest l : List ℕ)
        → IsNextLine (Some bytes) (Some rest) l Input → AreLines bytes (l ∷ []) × (rest ≡ []) }
    ensures none { (bytes rest l : List ℕ)
        → IsNextLine (Some bytes) (Some rest) l NoLine → AreLines bytes [] × (rest ≡ []) }
{}

/// States what is in an output after a write that failed: what it had, and then a prefix of the bytes.
pub fn prefix_law()
    ensures { (before after bytes : List ℕ)
        → AppendsPrefix (Some before) (Some after) bytes
        ↔ ((front rest : List ℕ) × (bytes ≡ front ++ rest) × (after ≡ before ++ front)) }
{}
