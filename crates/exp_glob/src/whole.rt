//! Patterns that match whole texts (`string match`).

ghost use Rattle.std.specs.Prelude.{◌≡◌, ◌++◌, ◌∷◌, [], map, is_some, IfOk};
ghost use Rattle.exp_glob.specs.Search.{first_span};
ghost use Rattle.exp_glob.specs.Whole.{plain, plain_elements, whole_of};

use crate::element::{Element, Elements, Single};
use crate::pattern::Glob;
use crate::plan::SearchElements;
use crate::reading::elements;
use std::alloc::{AllocError, Global};

/// Returns an element. A `$` at the end of the pattern becomes the byte.
fn plain(element: Element) -> Element
    ensures { result ≡ plain element }
{
    match element {
        Element::Star => Element::Star,
        Element::One(single) => Element::One(single),
        Element::End => Element::One(Single::Byte(b'$')),
    }
}

/// Returns the elements, followed by the end of the text. A `$` at the end of the pattern becomes the byte.
fn to_the_end(alloc: Global, elements: Elements) -> Result<Elements, AllocError>
    ensures { IfOk result (λ es. es ≡ map plain elements ++ Element.End ∷ []) }
{
    let mut made = Elements::new(alloc);
    for element in elements.list {
        made.push(plain(element))?;
    }
    made.push(Element::End)?;
    Ok(made)
}

impl Glob {
    /// Reads a pattern that matches whole texts. `^` and `$` in it are ordinary bytes. Searches with
    /// this `nocase` are fast.
    pub fn whole(alloc: Global, pattern: &[u8], nocase: bool) -> Result<Glob, AllocError>
        ensures { IfOk result (λ g. g ≡ whole_of pattern.now) }
    {
        let elements = to_the_end(alloc, elements(alloc, pattern)?)?;
        Ok(Glob {
            anchored: true,
            elements: SearchElements::new(alloc, elements, nocase)?,
        })
    }

    /// Returns whether the pattern matches. `nocase` ignores the case of ASCII letters.
    pub fn is_found(&self, text: &[u8], nocase: bool) -> bool
        ensures { result ≡ is_some (first_span self.now nocase text.now) }
    {
        self.find(text, nocase).is_some()
    }
}
