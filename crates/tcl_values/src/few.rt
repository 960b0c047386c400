//! Short texts.

ghost use Rattle.std.specs.Prelude.{◌≡◌, ◌++◌, [], slice_index, IfSome};
ghost use Rattle.std.specs.Bool.{OnTrue, OnFalse};
ghost use Rattle.tcl_values.specs.Rooms.{IsRoom};

/// The most bytes in a short text.
const SHORT: usize = 15;

/// A text of at most 15 bytes that needs no allocation: its bytes, unused space, and their number.
///
/// The bytes are aligned to a machine word, so that a value of any form is moved by whole words.
#[derive(Clone, Copy, Drop)]
pub struct Few {
    bytes: [u8; 16],
    aligned: [u64; 0],
    ghost room: { IsRoom bytes },
}

impl Few {
    ghost use Rattle.tcl_values.specs.Fews.{few_bytes};

    /// Creates an empty text.
    #[inline(always)]
    pub(crate) fn new() -> Few
        ensures { few_bytes result ≡ [] }
    {
        Few {
            bytes: [0; 16],
            aligned: [],
        }
    }

    /// Creates a text of these bytes. `None` if they are too many.
    #[inline(always)]
    pub(crate) fn of(bytes: &[u8]) -> Option<Few>
        ensures { IfSome result (λ f. few_bytes f ≡ bytes.now) }
    {
        let mut few = Few::new();
        if few.extend(bytes) {
            return Some(few);
        }
        None
    }

    /// Returns the number of bytes.
    #[inline(always)]
    fn len(&self) -> usize
        ensures { result ≡ slice_index self.now.bytes 15 }
    {
        usize::from(self.bytes[SHORT])
    }

    /// Returns the bytes, in order.
    #[inline(always)]
    pub(crate) fn as_slice(&self) -> &[u8]
        ensures { result.now ≡ few_bytes self.now }
    {
        &self.bytes[..self.len()]
    }

    /// Appends bytes if there is space for them, and returns whether there is. Otherwise nothing
    /// changes.
    #[inline(always)]
    pub(crate) fn extend(&mut self, more: &[u8]) -> bool
        ensures extended { OnTrue result (few_bytes self.new ≡ few_bytes self.old ++ more.now) }
        ensures kept { OnFalse result (self.new ≡ self.old) }
    {
        let len = self.len();
        if SHORT - len < more.len() {
            return false;
        }
        self.bytes[len..len + more.len()].copy_from_slice(more);
        self.bytes[SHORT] = (len + more.len()) as u8;
        true
    }
}
