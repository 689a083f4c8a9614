//! What an edit of a text returns.
ghost use Rattle.std.specs.Prelude.{◌≡◌, false, MatchOption, string_bytes};
ghost use Rattle.jsonptr_text_edit.specs.Edited.{text_of, is_in_place};
ghost use Rattle.jsonptr_text_edit.specs.declared.edited.Edited.TheVariants.{InPlace};

/// A text after an edit.
///
/// A caller chooses by one call whether a document that is printed anew will do: [`Edited::in_place`] or
/// [`Edited::or_reprinted`].
#[derive(Debug, Drop)]
pub enum Edited {
    /// The old text with the bytes at the location of the edit changed. All others are unchanged.
    InPlace(String),
    /// The document without its layout: printed anew, without white space, with sorted keys, and each
    /// number in the form that it is printed in.
    Reprinted(String),
}

impl Edited {
    /// Returns whether the edit is made in place.
    pub fn is_in_place(&self) -> bool
        ensures { result ≡ is_in_place self.now }
    {
        match self {
            Edited::InPlace(_text) => true,
            Edited::Reprinted(_text) => false,
        }
    }

    /// Returns the text if the edit is made in place, and `None` if the document is printed anew.
    ///
    /// # Examples
    ///
    /// ```rust
    /// let mut buffers = Buffers::new(alloc);
    /// let edit = Edit::Rename(Pointer::parse("/a")?, "b");
    /// let new = edit_text(&mut buffers, "{\"z\": 1.50, \"a\": 2}", &edit)?.in_place();
    /// assert!(rt; new.is_some_and(|new| new.as_str() == "{\"z\": 1.50, \"b\": 2}"));
    /// let twice = "{\"z\": 1.50, \"a\": 2, \"a\": 3}";
    /// assert!(rt; edit_text(&mut buffers, twice, &edit)?.in_place().is_none());
    /// ```
    pub fn in_place(self) -> Option<String>
        ensures { MatchOption result (is_in_place self ≡ false) (λ s. self ≡ InPlace s) }
    {
        match self {
            Edited::InPlace(text) => Some(text),
            Edited::Reprinted(_text) => None,
        }
    }

    /// Returns the text, also where it is the document without its layout.
    ///
    /// # Examples
    ///
    /// ```rust
    /// let mut buffers = Buffers::new(alloc);
    /// let edit = Edit::Rename(Pointer::parse("/a")?, "b");
    /// let edited = edit_text(&mut buffers, "{\"z\": 1.50, \"a\": 2, \"a\": 3}", &edit)?;
    /// assert_eq!(rt; edited.or_reprinted().as_str(), "{\"b\":3,\"z\":1.5}");
    /// ```
    pub fn or_reprinted(self) -> String
        ensures { string_bytes result ≡ text_of self }
    {
        match self {
            Edited::InPlace(text) => text,
            Edited::Reprinted(text) => text,
        }
    }
}
