//! Laws of documents as lines.
ghost use Rattle.std.specs.Prelude.{◌≡◌, ◌≤◌, ℕ, [], ◌∷◌, ◌++◌};
ghost use Rattle.serde_json.specs.Data.{Data, depth};
ghost use Rattle.serde_json.specs.Read.{max_depth};
ghost use Rattle.jsonptr.specs.Json.{nodes, HasSortedKeys};
ghost use Rattle.jsonptr.specs.Node.{NodeMap};
ghost use Rattle.jsonptr.specs.Text.{Text};
ghost use Rattle.jsonptr_io.specs.Lines.{IsOneLine};
ghost use Rattle.jsonptr_text_paths.specs.Listing.{IsLineOf, Lists};
ghost use Rattle.jsonptr_text_paths.specs.Building.{Builds, IsLineError, StopsBuilding};
ghost use Rattle.jsonptr_text_paths.specs.declared.listing.Listed.TheVariants.{AllNodes};
ghost use Rattle.jsonptr_text_paths.specs.declared.build.LineError.{LineError};
ghost use Rattle.jsonptr_text_paths.specs.declared.build.BuildError.TheVariants.{Line};

use jsonptr_laws::assign::assign_law;

/// States that the lines of all nodes of a document build that document.
///
/// The document that they build has the same node map, floats included. With sorted keys, as each
/// document that is read has, it is the same value. If the document nests at most 127 deep, as each
/// document that is read does, no line is at fault: `build` then fails only if an allocation fails.
pub fn round_trip_law()
    ensures rebuilt { (d : Data) (lines : Text) (m : NodeMap)
        → Lists AllNodes d lines → Builds lines m → m ≡ nodes d }
    ensures same_value { (d e : Data) (lines : Text) → HasSortedKeys d → HasSortedKeys e
        → Lists AllNodes d lines → Builds lines (nodes e) → e ≡ d }
    ensures never_refused { (d : Data) (lines : Text) (number : ℕ) (e : LineError)
        → depth d ≤ max_depth → Lists AllNodes d lines
        → StopsBuilding lines (Line number e) → ⊥ }
{}

/// States that the line of a node has one line feed, at its end.
pub fn one_line_law()
    ensures { (pointer : Text) (v : Data) (line : Text) → IsLineOf pointer v line
        → (l : Text) × (line ≡ l ++ 10 ∷ []) × IsOneLine l }
{}

/// States that lines build one document, or that one line of them is at fault for one reason.
///
/// A line that adds no value has one error, with all its fields (`line`). So a text has at most one
/// line at fault (`one_stop`), none if it builds a document (`not_both`), and it builds at most one
/// (`one_document`).
pub fn one_error_law()
    ensures line { (n : NodeMap) (line : Text) (e f : LineError)
        → IsLineError n line e → IsLineError n line f → e ≡ f }
    ensures one_stop { (lines : Text) (i j : ℕ) (e f : LineError)
        → StopsBuilding lines (Line i e) → StopsBuilding lines (Line j f) → (i ≡ j) × (e ≡ f) }
    ensures not_both { (lines : Text) (m : NodeMap) (i : ℕ) (e : LineError)
        → Builds lines m → StopsBuilding lines (Line i e) → ⊥ }
    ensures one_document { (lines : Text) (k m : NodeMap)
        → Builds lines k → Builds lines m → k ≡ m }
{
    assign_law();
}
