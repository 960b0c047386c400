//! Names of array elements.

ghost use Rattle.std.specs.Prelude.{◌≡◌, ◌<◌, ◌==◌, length, option_map, is_some, position, IfSome};
ghost use Rattle.std.specs.Option.{option_copied};
ghost use Rattle.tcl_subst.specs.Slots.{base, element, index, parted};

/// Returns the variable that a name is looked up as, and the index if it is the name of an element.
pub fn parts(name: &[u8]) -> (&[u8], Option<&[u8]>)
    ensures variable { result.0.now ≡ base name.now }
    ensures index { option_copied result.1 ≡ index name.now }
{
    match element(name) {
        None => (name, None),
        Some((array, index)) => (array, Some(index)),
    }
}

/// Returns whether a name is that of an array's element: `array(index)`.
pub fn is_element(name: &[u8]) -> bool
    ensures { result ≡ is_some (element name.now) }
{
    element(name).is_some()
}

/// Splits a name `array(index)`: its last byte is `)`, and the array stands before the first `(`.
/// `None` for other names.
#[tactic(auto, unfolding(crate::specs::Slots::element))]
pub fn element(name: &[u8]) -> Option<(&[u8], &[u8])>
    ensures { option_map (λ e. (e.0.now, e.1.now)) result ≡ element name.now }
{
    match name.split_last() {
        None => None,
        Some((last, front)) => {
            if *last != b')' {
                return None;
            }
            parted(front)
        }
    }
}

/// Returns the bytes before and after the first `(`.
fn parted(front: &[u8]) -> Option<(&[u8], &[u8])>
    ensures { option_map (λ e. (e.0.now, e.1.now)) result ≡ parted front.now (position (λ b. b == 40) front.now) }
{
    match parenthesis(front) {
        None => None,
        Some(paren) => Some((&front[..paren], &front[paren + 1..])),
    }
}

fn parenthesis(front: &[u8]) -> Option<usize>
    ensures found { result ≡ position (λ b. b == 40) front.now }
    ensures within { IfSome result (λ k. k < length front.now) }
{
    front.iter().position(|b| *b == b'(')
}
